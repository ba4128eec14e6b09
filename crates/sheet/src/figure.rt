// Work figures.
ghost use Rattle.std.specs.Prelude.{◌≡◌, ◌*◌};
ghost use Rattle.sheet.specs.View.{sheet_of, work};

use crate::Sheet;

// The work figure of a tower: its height times itself.
pub fn tower_work(height: u8) -> u16
    ensures { result ≡ height * height }
{
    u16::from(height) * u16::from(height)
}

impl Sheet {
    // The work figure of a sheet: the sum over its targets.
    pub fn work(&self) -> u32
        ensures { result ≡ work (sheet_of self.now).targets }
    {
        self.targets
            .iter()
            .map(|target| u32::from(tower_work(target.height)))
            .sum()
    }
}
