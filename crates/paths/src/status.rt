// What is told of a ferry beside her position.
#[derive(Clone, Copy, Debug, PartialEq, Eq)]
pub enum Status {
    StoppedAt,
    IncomingAt,
    OnShape,
    OnStopChain,
    InTransitTo,
}
