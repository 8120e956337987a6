// The stage at which an offset was given, and the stages that take one: a known offset, in minutes. Both setters are the Rust's.
ghost use Rattle.std.specs.Prelude.{◌≡◌};
ghost use Rattle.ion.specs.Pair.Offset.{offset_minutes};
ghost use Rattle.ion.specs.Calls.Stages.{with_offset};

use crate::{HasFractionalSeconds, HasHour, HasMinute, HasSeconds, TimestampBuilder};
use ion::offset::OffsetMinutes;
use ion::{BuilderFields, BuilderOffset};

// A stage with an hour or finer.
pub trait SupportsOffset {}

impl SupportsOffset for HasHour {}

impl SupportsOffset for HasMinute {}

impl SupportsOffset for HasSeconds {}

impl SupportsOffset for HasFractionalSeconds {}

#[derive(Clone, Copy)]
pub struct HasOffset;

impl<S: SupportsOffset> TimestampBuilder<S> {
    // The fields are those of the local time of the offset.
    pub fn with_offset(self, minutes: i32) -> TimestampBuilder<HasOffset>
        ensures { result.fields ≡ with_offset self.fields (BuilderOffset.FromLocalFields (offset_minutes minutes)) }
    {
        TimestampBuilder::new(BuilderFields {
            offset: BuilderOffset::FromLocalFields(OffsetMinutes::new(minutes)),
            ..self.fields
        })
    }

    // The fields are those of UTC, which `build` moves to the local time of the offset.
    pub fn localize_to_offset(self, minutes: i32) -> TimestampBuilder<HasOffset>
        ensures { result.fields ≡ with_offset self.fields (BuilderOffset.FromUtcFields (offset_minutes minutes)) }
    {
        TimestampBuilder::new(BuilderFields {
            offset: BuilderOffset::FromUtcFields(OffsetMinutes::new(minutes)),
            ..self.fields
        })
    }
}
