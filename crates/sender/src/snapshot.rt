// A burst set down and taken up again. Any numbers may be taken up: what is sent then is the definition's at them. Each is a
// method with a name, since `into` would not show that a burst goes on.
ghost use Rattle.std.specs.Prelude.{◌≡◌};
ghost use Rattle.sender.specs.Sender.{standing, set_down};

use crate::states::{Sending, Snapshot};

impl Sending {
    pub fn set_down(self) -> Snapshot
        ensures { set_down result ≡ standing self }
    {
        let Sending { snapshot } = self;
        snapshot
    }
}

impl Snapshot {
    pub fn take_up(self) -> Sending
        ensures { standing result ≡ set_down self }
    {
        Sending { snapshot: self }
    }
}
