// The labels of a search.
ghost use Rattle.queue_client.specs.Kinds.{label_before};
ghost use Rattle.std.proofs.Common.{rules};

use queue::order::Ordered;

// A junction that is reached at a slot. The derived order goes by the fields, as they stand.
#[derive(Clone, Copy, PartialEq, PartialOrd, Debug)]
pub struct Label {
    pub slot: u16,
    pub junction: u16,
}

impl Ordered for Label {
    ghost before = { label_before };

    ghost total = { Prim.search rules };

    fn is_before(&self, other: &Label) -> bool {
        *self < *other
    }
}
