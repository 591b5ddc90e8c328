// The check of a road sheet as C programs call it; include/road_sheet.h declares it.
#![tactic(auto)]

ghost use Rattle.std.specs.Prelude.{◌≡◌};
ghost use Rattle.sheet.specs.Verdict.{fault_code, sheet_fault};

// The refusal's number times 2^32 and the place, or 0 for a sheet without a fault. C passes the slice as a pointer to
// its first byte and a length.
#[unsafe(no_mangle)]
pub extern "C" fn road_sheet_check(bytes: &[u8]) -> u64
    ensures { result ≡ fault_code (sheet_fault bytes.now) }
{
    sheet::export::road_sheet_check(bytes)
}
