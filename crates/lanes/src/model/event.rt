//! The events of a run's core.

/// What may happen to the lanes: worker `w` sends an item or closes its lane, the writer takes the
/// item whose turn it is, or the run is stopped.
#[derive(Clone, Copy)]
pub enum Event {
    Send(u32),
    Take,
    Close(u32),
    Stop,
}
