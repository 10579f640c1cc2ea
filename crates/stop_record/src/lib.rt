// A stop time as a record, and one that is filled with a distance. Slices of records, and their columns, are left to `records`.
#![tactic(auto)]

ghost use Rattle.std.specs.Prelude.{◌≡◌};
ghost use Rattle.stop_record.specs.Record.{filled_of};

// Arrival and departure are schedule seconds. What `dist` holds where `measured` is false is no distance.
#[repr(C)]
#[derive(Clone, Copy)]
pub struct StopTime {
    pub stop: u32,
    pub arrival: u32,
    pub departure: u32,
    pub sequence: u32,
    pub measured: bool,
    pub dist: f32,
}

// A record that has a distance keeps it; one that has none takes d where there is an answer: k is not 0.
pub fn filled(s: StopTime, d: f32, k: u8) -> StopTime
    ensures { result ≡ filled_of s d k }
{
    if s.measured || k == 0 {
        return s;
    }
    StopTime {
        measured: true,
        dist: d,
        ..s
    }
}
