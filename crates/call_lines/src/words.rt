// What is left of a line, and the word that it begins with.
ghost use Rattle.std.specs.Prelude.{◌+◌, ◌^◌, ◌≤◌, length};

#[derive(Clone, Copy)]
pub struct Rest<'l> {
    pub bytes: &'l [u8],
    // the column of the first of the bytes
    pub column: usize,
    // the column behind the end, too, fits 64 bits
    ghost fits: { column + length bytes.now ≤ 2 ^ 63 },
}

// A byte that is no digit, the longest run of digits, or the end of the line; each with its column.
#[derive(Clone, Copy)]
pub enum Word<'l> {
    Letter(u8, usize),
    Digits(&'l [u8], usize),
    End(usize),
}
