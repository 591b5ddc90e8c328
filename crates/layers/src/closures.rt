// A layer that bars what a plan's closures cover.
use arrayvec::ArrayVec;
use plan::Closure;
use plan::limits::MOST_CLOSURES;

pub mod layer;

const CLOSURES: usize = MOST_CLOSURES as usize;

#[derive(Drop)]
pub struct ClosureLayer<B> {
    below: B,
    closures: ArrayVec<Closure, CLOSURES>,
}
