// What the words of a device say of a table. The function does nothing: its contract is the law.
ghost use Rattle.fact_table.specs.Laws.{HasOneFault, HasTableOrFault};

/// Words have one fault of the table at most, and none where they hold a table. So `Fact::load` has one answer but for
/// want of memory.
pub fn one_answer()
    ensures fault { HasOneFault }
    ensures either { HasTableOrFault }
{}
