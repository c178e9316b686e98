//! The plan of an exploration and its laws: each function has an empty body, and its contract is the law.
#![tactic(auto)]

ghost use Rattle.law_plan.specs.Certified.{PlanIsCertified};
ghost use Rattle.law_plan.specs.Classes.{ClassesPartition, FollowedAreOwned, FoundInClass, NoClassNoneFound, ClassesHaveLiveTerms};
ghost use Rattle.law_plan.specs.Blocks.{WalkedIsFollowed, ExpectedIsFirst, WalkedIsPlan, PlanGoesInOrder};
ghost use Rattle.law_plan.specs.Existence.{NextIsOne, ItemIsOfPlan, SearchGoesOn, PlanExists, PlanIsFollowed, ItemsHaveEntries};
ghost use Rattle.law_plan.specs.Filed.{FoundAtLeaf, NoneAtSplit, FoundBelowClass, NoneWithoutClass, NoneInOtherClass, FoundInTrees};
ghost use Rattle.law_plan.specs.Owed.{OwedIsValid, OwedCovers};
ghost use Rattle.law_plan.specs.Written.{FoundIsOwed};
ghost use Rattle.law_plan.specs.Course.{OneSearch, LemmasAreAdded};
ghost use Rattle.law_plan.specs.Goals.{GoalsAgree, DefinedGoalsAreLaws};
ghost use Rattle.law_plan.specs.Trees.{PlacedAreTrees, ClassesAreByFlatTests, TreesAreOne};
ghost use Rattle.law_plan.specs.Central.{EachHasLeast, KilledHasNoLeast, SchemaIsDecided, TermIsDecided, LiveIsLeast, FollowedIsPlan, OnePlan, FollowedBegins};

/// Every term of the universe has a least, and an instance of a killed schema isn't its own. The live terms so far decide
/// what becomes of a schema and of a term.
pub fn least_laws()
    ensures exists { EachHasLeast }
    ensures killed { KilledHasNoLeast }
    ensures schema { SchemaIsDecided }
    ensures instance { TermIsDecided }
{}

/// The live terms of the plan are the least ones; whoever goes in order to the end has the plan; there is one plan; and
/// the entries so far are a beginning of it.
pub fn plan_laws()
    ensures live { LiveIsLeast }
    ensures followed { FollowedIsPlan }
    ensures one { OnePlan }
    ensures begins { FollowedBegins }
{}

/// To ask for the class of a schema first misses nothing, and each class of the plan has a live term.
pub fn class_laws()
    ensures classes { ClassesPartition }
    ensures owned { FollowedAreOwned }
    ensures found { FoundInClass }
    ensures nowhere { NoClassNoneFound }
    ensures live { ClassesHaveLiveTerms }
{}

/// To go schema by schema and instance by instance is to go in order, and gives the plan; and the plan goes in order so.
pub fn walk_laws()
    ensures followed { WalkedIsFollowed }
    ensures first { ExpectedIsFirst }
    ensures plan { WalkedIsPlan }
    ensures goes { PlanGoesInOrder }
{}

/// There is one next entry, and it is about an item of the plan. The search goes on to its end, so there is a plan; and each item of the plan has an entry.
pub fn existence_laws()
    ensures next { NextIsOne }
    ensures at_hand { ItemIsOfPlan }
    ensures on { SearchGoesOn }
    ensures plan { PlanExists }
    ensures followed { PlanIsFollowed }
    ensures items { ItemsHaveEntries }
{}

/// The two sides of a goal of the plan agree at every test.
pub fn goal_laws()
    ensures agree { GoalsAgree }
    ensures laws { DefinedGoalsAreLaws }
{}

/// The plan meets what a valid certificate asks of its schemas and terms, apart from the chains.
pub fn certified_laws()
    ensures certified { PlanIsCertified }
{}

/// The plan with laws, lemmas and steps between its entries, chains that replay, values at the tests that were asked, and trees
/// make a valid certificate; so its laws cover the universe. A search that is written in order, with trees by the placing rule, has all
/// of that where each killed or moved term has a value at every test.
pub fn owed_laws()
    ensures found { FoundIsOwed }
    ensures valid { OwedIsValid }
    ensures covers { OwedCovers }
{}

/// There is one search at most: its laws with their marks, and its lemmas, stand each in its place. Completion keeps what it has,
/// and adds lemmas alone.
pub fn course_laws()
    ensures one { OneSearch }
    ensures lemmas { LemmasAreAdded }
{}

/// Trees by the placing rule are what a valid certificate asks of its trees. Two schemas share a class in them exactly where they
/// agree at every flat test, and there is one list of them.
pub fn tree_laws()
    ensures trees { PlacedAreTrees }
    ensures classes { ClassesAreByFlatTests }
    ensures one { TreesAreOne }
{}

/// In a tree of live terms by all tests, the one that is like a term can only be that to which the term leads, and there is none
/// where it leads to no child. A tree of schemas by flat tests leads to the one class that can have it: so two walks find it.
pub fn found_laws()
    ensures leaf { FoundAtLeaf }
    ensures split { NoneAtSplit }
    ensures below { FoundBelowClass }
    ensures without { NoneWithoutClass }
    ensures other { NoneInOtherClass }
    ensures trees { FoundInTrees }
{}
