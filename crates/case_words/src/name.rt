// The forms by their names, where the rows of each are counted, and how many may stand in a case.
use case_tables::{Case, limits};
use std::fmt;

#[derive(Clone, Copy, Debug, PartialEq, Eq)]
pub enum Form {
    Feed,
    Trip,
    Now,
    Offset,
    Cancelled,
    Route,
    Update,
    Stop,
    StopKey,
    Static,
    StaticKey,
    Call,
    Shape,
    Point,
    Alias,
    Line,
    Calendar,
    Range,
    Exception,
}

impl Form {
    // Every form, those of many rows first.
    const ALL: [Form; 19] = [
        Form::Point,
        Form::Call,
        Form::Stop,
        Form::Static,
        Form::Shape,
        Form::StopKey,
        Form::StaticKey,
        Form::Alias,
        Form::Line,
        Form::Calendar,
        Form::Range,
        Form::Exception,
        Form::Update,
        Form::Feed,
        Form::Trip,
        Form::Now,
        Form::Offset,
        Form::Cancelled,
        Form::Route,
    ];

    // The name that its lines begin with.
    pub fn name(self) -> &'static str {
        match self {
            Form::Feed => "feed",
            Form::Trip => "trip",
            Form::Now => "now",
            Form::Offset => "offset",
            Form::Cancelled => "cancelled",
            Form::Route => "route",
            Form::Update => "update",
            Form::Stop => "stop",
            Form::StopKey => "stop-key",
            Form::Static => "static",
            Form::StaticKey => "static-key",
            Form::Call => "call",
            Form::Shape => "shape",
            Form::Point => "point",
            Form::Alias => "alias",
            Form::Line => "line",
            Form::Calendar => "calendar",
            Form::Range => "range",
            Form::Exception => "exception",
        }
    }

    // The form of a name; a query has none.
    pub fn named(name: &[u8]) -> Option<Form> {
        Form::ALL
            .iter()
            .copied()
            .find(|form| form.name().as_bytes() == name)
    }

    // Where its lines are counted.
    pub fn held(self, case: &mut Case) -> &mut u32 {
        match self {
            Form::Feed => &mut case.feeds,
            Form::Trip => &mut case.keys,
            Form::Now => &mut case.nows,
            Form::Offset => &mut case.offsets,
            Form::Cancelled => &mut case.cancels,
            Form::Route => &mut case.routes,
            Form::Update => &mut case.updates,
            Form::Stop => &mut case.stops,
            Form::StopKey => &mut case.stopkeys,
            Form::Static => &mut case.trips,
            Form::StaticKey => &mut case.tripkeys,
            Form::Call => &mut case.calls,
            Form::Shape => &mut case.shapes,
            Form::Point => &mut case.points,
            Form::Alias => &mut case.aliases,
            Form::Line => &mut case.lines,
            Form::Calendar => &mut case.calendars,
            Form::Range => &mut case.ranges,
            Form::Exception => &mut case.exceptions,
        }
    }

    // How many rows it may have.
    pub fn most(self) -> u32 {
        match self {
            Form::Feed | Form::Trip | Form::Now | Form::Offset | Form::Cancelled | Form::Route => 1,
            Form::Update => limits::UPDATES,
            Form::Stop => limits::STOPS,
            Form::StopKey => limits::STOP_KEYS,
            Form::Static => limits::TRIPS,
            Form::StaticKey => limits::TRIP_KEYS,
            Form::Call => limits::CALLS,
            Form::Shape => limits::SHAPES,
            Form::Point => limits::POINTS,
            Form::Alias | Form::Line | Form::Calendar | Form::Range | Form::Exception => {
                limits::OTHERS
            }
        }
    }

    // Whether a line may have so many fields, its name among them. What may follow the tokens that an update, a stop, a static trip or a call must have is seen to
    // where it is read.
    pub fn is_count(self, fields: usize) -> bool {
        match self {
            Form::Cancelled => fields == 1,
            Form::Feed | Form::Trip | Form::Now | Form::Offset | Form::Route => fields == 2,
            Form::Shape | Form::Calendar => fields == 2,
            Form::StopKey | Form::StaticKey | Form::Point | Form::Alias | Form::Line => fields == 3,
            Form::Exception => fields == 5,
            Form::Range => fields == 6,
            Form::Update | Form::Stop | Form::Static | Form::Call => true,
        }
    }
}

impl fmt::Display for Form {
    fn fmt<W: fmt::Write>(&self, f: &mut fmt::Formatter<W>) -> fmt::Result {
        let name = self.name();
        write!(f, "{name}")
    }
}
