// Laws of file systems without files. The function does nothing: its contract is the laws.
ghost use Rattle.recovery.specs.Empty.{EmptyDisksAreValid, EmptyDisksHaveNoFiles, EmptyDisksAreOwn, EmptyDisksAreFree};

/// A file system without files has no fault, and was left by this program, whatever its fingerprint. All pages of
/// the data area are free.
pub fn empty_disks()
    ensures valid { EmptyDisksAreValid }
    ensures no_files { EmptyDisksHaveNoFiles }
    ensures own { EmptyDisksAreOwn }
    ensures free { EmptyDisksAreFree }
{}
