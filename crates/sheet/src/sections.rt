// The parts of a sheet whose head is in order.
use plan::Settings;

#[derive(Clone, Copy)]
pub struct Sections<'a> {
    pub settings: Settings,
    pub segments: &'a [u8],
    pub closures: &'a [u8],
}
