// An event in which nothing happens.
ghost use Rattle.std.specs.Prelude.{◌≡◌, [], None};
ghost use Rattle.dn_model.specs.Disk.{Disk};
ghost use Rattle.dn_volume.specs.Agrees.{Agrees, IsVolume};
ghost use Rattle.dn_volume.specs.Works.{DaemonWorks};

use crate::outcome::Outcome;
use crate::volume::Volume;
use fingerprint::Fingerprint;
use pm_device::Pm;

/// The daemon has no item begun, and none waits.
pub fn daemon_rests<D: Pm, F: Fingerprint>(v: &mut Volume<D, F>) -> Outcome
    requires agrees { Agrees D.state v.old }
    requires none_begun { v.old.parts.sharing ≡ None }
    requires none_waits { v.old.parts.queue.items ≡ [] }
    ensures agrees { Agrees D.state v.new }
    ensures event { (d : Disk) → IsVolume d v.old.parts (D.state v.old.device)
        → DaemonWorks D.state F.print v.old v.new d result }
{
    Outcome::Idle
}
