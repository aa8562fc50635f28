// The memory that a run is lent: cells, places for a sheet's numbers, and places for holders.
#[derive(Drop)]
pub(crate) struct Lent<'a, P> {
    pub(crate) cells: &'a mut [P],
    pub(crate) sheet: &'a mut [P],
    pub(crate) holders: &'a mut [usize],
}
