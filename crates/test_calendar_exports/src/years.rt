// The starts of years.
ghost use Rattle.std.specs.Prelude.{◌≡◌};
ghost use Rattle.ion.specs.Calendar.Dates.{year_start};

#[unsafe(no_mangle)]
pub extern "C" fn year_start(year: u32) -> u64
    ensures { result ≡ year_start year }
{
    calendar::year_start(year)
}
