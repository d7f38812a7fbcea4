//! A member that sealed for two transactions of one epoch that consume one version is faulty, if no seal is forged and no
//! digests collide; the members that sealed two valid certificates of such transactions have more than a third of the
//! stake.

ghost use Rattle.headline_law.specs.Blame.{NoneIsHonest, TheyHaveMoreThanAThird};

/// If no statement is forged and no digests of transactions collide, no honest member is blamed for two certified
/// transactions of a run: a member that is blamed did vote twice. How many are faulty plays no part.
pub fn none_is_honest()
    ensures { NoneIsHonest }
{}

/// Two valid certificates that consume one version blame members with more than a third of the stake. So if two are
/// seen, the assumption on faulty stake is known to be broken, and by whom.
pub fn they_have_more_than_a_third()
    ensures { TheyHaveMoreThanAThird }
{}
