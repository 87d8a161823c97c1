//! What an image stands for.
ghost use Rattle.law_unique.specs.Images.{HasOneLog, HasOneChain, HasOneDisk, StandsForTheSame, IsSameBothWays, SameDisksAreValid, SameDisksMeanTheSame, HasOneMap, IsKnownByWordsRead, IsKnownByWordsRolled, RollingKeeps};

/// Words hold one log of an inode at most, and one chain of a prefix.
pub fn one_reading()
    ensures log { HasOneLog }
    ensures chain { HasOneChain }
{}

/// An image stands for one state at most: the same geometry, inodes, logs, chains and pointers, and
/// the same words of pages that are read. It stands for each state that is the same there.
pub fn one_disk()
    ensures one { HasOneDisk }
    ensures same { StandsForTheSame }
{}

/// Two states that agree there are valid both or neither, and have the same files, names, rows, maps,
/// counts of mappings and free pages. Both or neither are exact, settled, and have what every image
/// of this program has. So an image has the files of one map.
pub fn one_meaning()
    ensures both_ways { IsSameBothWays }
    ensures valid { SameDisksAreValid }
    ensures disks { SameDisksMeanTheSame }
    ensures files { HasOneMap }
{}

/// An image is known by the words that are read: as they stand where the gate is closed, and in
/// general as they stand once the journal is rolled back.
pub fn known_by_words_read()
    ensures closed { IsKnownByWordsRead }
    ensures open { IsKnownByWordsRolled }
{}

/// Rolling the journal back changes nothing of what an image stands for.
pub fn rolling_keeps()
    ensures { RollingKeeps }
{}
