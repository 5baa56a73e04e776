use axp_line::Request;

/// What an act of a processor asks of the others.
#[derive(Debug, Drop)]
pub enum Ask2 {
    /// Nothing: it touches the processor alone.
    Private,
    /// This, of the bus.
    Bus(Request),
}
