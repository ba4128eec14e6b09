// What an opening line makes.
use ground::{Listed, Square};
use terms::Settings;

// A ground of its kind and settings; a square one with how many columns a row of its drawing has.
#[derive(Drop)]
pub(crate) enum Made {
    Square {
        ground: Square,
        settings: Settings,
        width: u16,
    },
    Listed {
        ground: Listed,
        settings: Settings,
    },
}
