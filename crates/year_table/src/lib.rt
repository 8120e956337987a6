// The table of year starts.
#![tactic(auto)]

ghost use Rattle.std.specs.Prelude.{◌≡◌};
ghost use Rattle.ion.specs.Calendar.YearStarts.{year_starts};

mod starts;

// The number of 1 January for each year 0 to 10000, year 0 first.
pub fn year_starts() -> &'static [u32; 10_001]
    ensures { result.now ≡ year_starts }
{
    &starts::YEAR_STARTS
}
