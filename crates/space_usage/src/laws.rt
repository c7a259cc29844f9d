// What the counts of usage are together.
ghost use Rattle.space_usage.specs.Sums.{UsagesAddUp};

/// Each block under the high mark is counted once, so that the counts add up to the mark.
pub fn usages_add_up()
    ensures { UsagesAddUp }
{}
