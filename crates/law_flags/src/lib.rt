//! Laws of flags and masks: a Write item of a live file's log gets another flag or another mask, by one word.
//!
//! Each function states laws of all disks; it does nothing.
#![tactic(auto)]

ghost use Rattle.law_flags.specs.FlagLaws.{FlagIsOneWord, MaskIsOneWord, FlagChangesItsPlaces, MaskChangesItsPlaces, FlagKeepsPages, MaskKeepsPages, FlagStaysOwn, MaskStaysOwn, FlagStaysSettled, MaskStaysSettled, PlacesTellItem, MoreBitsKeepAlone};

/// An item gets another flag: the flag's word decides between two valid disks. The places that the item maps have the
/// new flag; files, mappings, rows, log pages and free pages stay. What every image of this program has stays where
/// an item is called complete once its places are done.
pub fn flag_is_set()
    ensures one_word { FlagIsOneWord }
    ensures places { FlagChangesItsPlaces }
    ensures pages { FlagKeepsPages }
    ensures own { FlagStaysOwn }
    ensures settled { FlagStaysSettled }
{}

/// An item gets another mask: the mask's word decides between two valid disks. The places that the item maps have the
/// new mask; files, mappings, rows, log pages and free pages stay. What every image of this program has stays where
/// each place that was left alone is so still.
pub fn mask_is_set()
    ensures one_word { MaskIsOneWord }
    ensures places { MaskChangesItsPlaces }
    ensures pages { MaskKeepsPages }
    ensures own { MaskStaysOwn }
    ensures settled { MaskStaysSettled }
{}

/// The places that an item maps have its flag and its mask, so that a mask with each bit of the one before keeps alone
/// what was left alone.
pub fn places_tell_item()
    ensures tell { PlacesTellItem }
    ensures more_bits { MoreBitsKeepAlone }
{}
