// Why an image isn't mounted.
use dn_check::read::Halt;
use dn_model::ImageFault;
use pm_device::Failed;
use std::alloc::AllocError;

/// Why an image isn't repaired, or isn't mounted.
#[derive(Clone, Copy, Debug, PartialEq, Eq)]
pub enum MountFault {
    /// Its words have this first fault by the twelve rules. One of the rules of the head and the journal was found
    /// before anything was stored, any other once the journal was rolled back.
    Image(ImageFault),
    /// Memory ran out. Each image on the way has the files of before.
    NoMemory,
    /// A fence of the device failed. Each image on the way has the files of before.
    Failed,
}

impl From<Halt> for MountFault {
    ghost use Rattle.std.specs.Prelude.{◌≡◌};
    ghost use Rattle.dn_mount.specs.Faults.{fault_of_halt};

    ghost from_gives = { λ halt fault. fault ≡ fault_of_halt halt };

    fn from(halt: Halt) -> MountFault {
        match halt {
            Halt::Fault(fault) => MountFault::Image(fault),
            Halt::NoMemory => MountFault::NoMemory,
        }
    }
}

impl From<AllocError> for MountFault {
    ghost use Rattle.std.specs.Prelude.{◌≡◌};
    ghost use Rattle.dn_mount.specs.declared.fault.MountFault.TheVariants.{NoMemory};

    ghost from_gives = { λ _ fault. fault ≡ NoMemory };

    fn from(_fault: AllocError) -> MountFault {
        MountFault::NoMemory
    }
}

impl From<Failed> for MountFault {
    ghost use Rattle.std.specs.Prelude.{◌≡◌};
    ghost use Rattle.dn_mount.specs.declared.fault.MountFault.TheVariants.{Failed as FenceFailed};

    ghost from_gives = { λ _ fault. fault ≡ FenceFailed };

    fn from(_fault: Failed) -> MountFault {
        MountFault::Failed
    }
}
