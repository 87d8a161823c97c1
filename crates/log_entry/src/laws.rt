// Laws of the items' spellings. Each function does nothing: its contract is the law.
ghost use Rattle.log_entry.specs.Laws.{SpellsOneItem, SpellsOneList, HasOneFront, IsReadAgain, BytesComeBack};

/// One spelling stands for one item, no spelling begins with another, and so one list of slots
/// spells one list of items at most.
pub fn one_spelling()
    ensures item { SpellsOneItem }
    ensures list { SpellsOneList }
{}

/// Slots begin with one thing: with one item, or with a part of one, or with neither. So
/// `read_front` has one answer, and an item that was written is read again whatever follows it.
pub fn one_front()
    ensures one { HasOneFront }
    ensures again { IsReadAgain }
{}

/// Bytes come back from the number that has them in order, the first the least significant.
pub fn bytes_back()
    ensures { BytesComeBack }
{}
