// The check in one number, which the static library `sheet_c` exports to C programs.
ghost use Rattle.std.specs.Prelude.{◌≡◌};
ghost use Rattle.sheet.specs.Verdict.{fault_code, sheet_fault};

use crate::checking::check;

const PLACES: u64 = 4_294_967_296;

// The refusal's number times 2^32 and the place, or 0 for a sheet without a fault.
pub fn road_sheet_check(bytes: &[u8]) -> u64
    ensures { result ≡ fault_code (sheet_fault bytes.now) }
{
    check(bytes).map_or(0, |fault| {
        fault.refusal.number() as u64 * PLACES + fault.place as u64
    })
}
