// The lengths of months, as a date picker asks them.
ghost use Rattle.std.specs.Prelude.{◌≡◌};
ghost use Rattle.ion.specs.Calendar.Dates.{days_in_month};

#[unsafe(no_mangle)]
pub extern "C" fn days_in_month(year: u32, month: u32) -> u32
    ensures { result ≡ days_in_month year month }
{
    calendar::days_in_month(year, month)
}
