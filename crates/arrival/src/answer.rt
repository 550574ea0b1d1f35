// When all axes can arrive, and the lowest axis, counted from 0, that has that time as its shortest duration or as a
// right end.
#[derive(Clone, Copy)]
pub struct Arrival {
    pub time: f64,
    pub axis: u64,
}
