// A book with one segment below a horizon of 20: how many legs stand, by their entry.
ghost use Rattle.std.specs.Prelude.{◌≡◌, ◌≤◌, length};
ghost use Rattle.book.specs.Meaning.{total};
ghost use Rattle.layer_cases.specs.Row.{row_meaning};

pub mod booked;

#[derive(Drop)]
pub struct RowBook {
    slots: u8,
    limit: u8,
    row: [u16; 20],
    count: u16,
    ghost sized: { length row ≡ 20 },
    ghost takes: { 1 ≤ slots },
    ghost short: { slots ≤ 64 },
    ghost small: { limit ≤ 255 },
    ghost counted: { count ≡ total (row_meaning slots limit row) },
    ghost few: { count ≤ 1024 },
}
