// What a kind of elements has to have, to stand in a queue.
ghost use Rattle.std.specs.Prelude.{◌≡◌, Bool};
ghost use Rattle.queue.specs.Order.{TotalOrder};

pub trait Ordered: Copy {
    // The first of two elements comes before the second.
    ghost before: { Self → Self → Bool };

    // It has no body: `*self < *other` here would ask `PartialOrd` of every kind.
    fn is_before(&self, other: &Self) -> bool
        ensures { result ≡ before self.now other.now };

    ghost total: { TotalOrder before };
}
