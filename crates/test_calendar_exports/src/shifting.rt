// A date and time moved by an offset.
ghost use Rattle.std.specs.Prelude.{◌≡◌};
ghost use Rattle.test_calendar_exports.specs.Shifting.{date_time, is_movable, moved_by, MovedIs};

use ion::DateTime;
use ion::offset::OffsetMinutes;

// The number of a shift of no date and time of the years 0 to 10000, or by minutes of no offset: of tests alone. A number, as C
// has it.
const NOT_MOVABLE: u32 = 102;

// Whether `t` is a date and time in the years 0 to 10000, and `m` an offset.
fn is_movable(t: DateTime, m: OffsetMinutes) -> bool
    ensures { result ≡ is_movable t m.0 }
{
    t.year <= 10000 && calendar::is_date(t.date()) && t.hour < 24 && t.minute < 60 && m.is_offset()
}

#[tactic(auto, unfolding(crate::specs::Shifting::moved_by))]
fn move_by(t: DateTime, m: OffsetMinutes) -> Option<DateTime>
    ensures { result ≡ moved_by t m.0 }
{
    is_movable(t, m).then(|| calendar::add_offset_to_utc(t, m))
}

fn store_moved(moved: Option<DateTime>, time: &mut [u32; 5]) -> u32
    ensures { MovedIs moved result time.new }
{
    let Some(t) = moved else {
        *time = [0; 5];
        return NOT_MOVABLE;
    };
    *time = [t.year, t.month, t.day, t.hour, t.minute];
    0
}

// Year, month, day, hour and minute, moved into `time`.
#[unsafe(no_mangle)]
pub extern "C" fn add_offset_to_utc(
    year: u32,
    month: u32,
    day: u32,
    hour: u32,
    minute: u32,
    offset: i32,
    time: &mut [u32; 5],
) -> u32
    ensures { MovedIs (moved_by (date_time year month day hour minute) offset) result time.new }
{
    let t = DateTime {
        year,
        month,
        day,
        hour,
        minute,
    };
    store_moved(move_by(t, OffsetMinutes::new(offset)), time)
}
