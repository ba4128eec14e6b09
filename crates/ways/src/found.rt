// What a search found.

// The fewest steps home of each column. There are 256 places, whatever the ground: memory is fixed.
#[derive(Drop)]
pub struct Ways {
    pub(crate) steps: [Option<u16>; 256],
}
