//! Laws on wins by force: each is a clause of a function without a body.
ghost use Rattle.arimaa_forced.specs.SearchLaws.{WinsOneDeeper, OwnWinsSome, OtherWinsEach, DecisiveDecides};
ghost use Rattle.arimaa_forced.specs.SearchLaws.{FirstIsDecisive, LooksAtOne, LooksAtAll, LooksAtNext, FirstDecisiveIsPlayed, FirstDecisiveIsExact};
ghost use Rattle.arimaa_forced.specs.CostLaws.{SizeOneDeeper, CostOneDeeper, CrowdOneDeeper, CostIsSome, CostWithinSize, SizesGrow, CrowdsGrow};
ghost use Rattle.arimaa_forced.specs.CostLaws.{TreeWithinSize, TreeWithinCrowd, NeedIsInTree, NeedWithinSize, NeedWithinCrowd, NeedGoesToTheRank, NeedGoesToTheDepth};
ghost use Rattle.arimaa_forced.specs.StrategyLaws.{AcceptedPlays, AcceptedIsWon, AcceptedAtItsRank, OwnIsAccepted, OwnHasRank, OwnPlays};
ghost use Rattle.arimaa_forced.specs.StrategyLaws.{EntriesPlay, OwnEntriesAreAccepted, EntriesArePlanned, EntriesAreMet};

/// A position is won one turn deeper by what is won among the next positions.
pub fn wins_go_one_deeper()
    ensures among { WinsOneDeeper }
    ensures own { OwnWinsSome }
    ensures other { OtherWinsEach }
    ensures decisive { DecisiveDecides }
{}

/// A look through the next positions ends at the first decisive one.
pub fn looks_end_at_the_first_decisive()
    ensures decisive { FirstIsDecisive }
    ensures one { LooksAtOne }
    ensures all { LooksAtAll }
    ensures next { LooksAtNext }
{}

/// One turn below its rank the first decisive position is what the attacker plays.
pub fn first_decisive_is_played()
    ensures played { FirstDecisiveIsPlayed }
    ensures exact { FirstDecisiveIsExact }
{}

/// What an undecided position costs and holds, by its next positions.
pub fn costs_go_one_deeper()
    ensures size { SizeOneDeeper }
    ensures cost { CostOneDeeper }
    ensures crowd { CrowdOneDeeper }
{}

/// A question costs itself at least and its size at most; sizes and crowds grow with the depth.
pub fn costs_are_within_sizes()
    ensures some { CostIsSome }
    ensures within { CostWithinSize }
    ensures sizes_grow { SizesGrow }
    ensures crowds_grow { CrowdsGrow }
{}

/// No question of a tree is larger or more crowded than its root.
pub fn trees_are_within_the_root()
    ensures size { TreeWithinSize }
    ensures crowd { TreeWithinCrowd }
{}

/// What is needed stands in the tree, and is no larger and no more crowded than its root.
pub fn needs_are_within_the_root()
    ensures tree { NeedIsInTree }
    ensures size { NeedWithinSize }
    ensures crowd { NeedWithinCrowd }
{}

/// A need goes as deep as the rank of the root where it is won, and else to the depth that is
/// asked.
pub fn needs_go_to_the_rank()
    ensures to_the_rank { NeedGoesToTheRank }
    ensures to_the_depth { NeedGoesToTheDepth }
{}

/// A strategy that is accepted wins every play, and shows that the root is won.
pub fn accepted_strategies_win()
    ensures plays { AcceptedPlays }
    ensures won { AcceptedIsWon }
    ensures at_its_rank { AcceptedAtItsRank }
{}

/// A position's own strategy is accepted with the rank of the position, and wins every play within
/// it.
pub fn own_strategies_are_accepted()
    ensures accepted { OwnIsAccepted }
    ensures rank { OwnHasRank }
    ensures plays { OwnPlays }
    ensures met { EntriesAreMet }
{}

/// Both hold of the entries that are written down, with the removal marks of their turns.
pub fn marks_change_nothing()
    ensures plays { EntriesPlay }
    ensures own { OwnEntriesAreAccepted }
    ensures planned { EntriesArePlanned }
{}
