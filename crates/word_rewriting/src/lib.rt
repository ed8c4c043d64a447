//! Laws of rewriting words by rules: the completion of words over leads, to a degree and in all degrees.
//!
//! No call does anything: each contract is the law. `specs/Statements` has each law by its name. The multiples of a
//! list Z count as zero.
#![tactic(auto)]

ghost use Rattle.std.specs.Prelude.{List, ℕ, Contains, ◌≢◌, [], length};
ghost use Rattle.monomial_order.specs.Monomial.{Exponents, IsMonomial, IsMultiple};
ghost use Rattle.word_laws.specs.Words.{AreLetters, Letters};
ghost use Rattle.word_rewriting.specs.Rewriting.{RewriteRule};
ghost use Rattle.word_rewriting.specs.Completeness.{AreComplete, AreReducedRules, AreRewriteRules, GeneratesReducible};
ghost use Rattle.word_rewriting.specs.Samples.{sample_rules, square_and_cube};
ghost use Rattle.word_rewriting.specs.Completion.{RulePair};
ghost use Rattle.word_rewriting.specs.Statements.{ChainsConnect, CompleteIfClosed, CompletenessIsExact, CompletionsBegin, CompletionsEnd, CompletionsGoOn, ConnectedPairsAreEnough, ConnectedPairsAreLeftOut, CoprimePairsAreJoinable, CriticalPairsAreUnique, CriticalPairsExist, DifferencesMakeRules, DifferencesShowMissedWords, DivisorsGenerate, ForCompletions, ForGeneratingRules, ForRenumberedLeads, ForRules, JoinableStays, LaterPairsAreEnough, LeadsAreAdded, LeastWordsAreRenumbered, MinimalLeftSidesAreExact, NewLettersAreSmaller, NewPairsAreAbove, NormalFormsAreFactors, NormalFormsAreLeast, NormalFormsExist, OrientedRulesJoin, PairsHaveOneImage, PairsShowMissedWords, ReducedRulesAreExact, ReducibleWordsAreRenumbered, RulesAreAdded, RulesAreRenumbered, RulesExist, RulesStay, TwiceTheDegreeIsEnough, WordsAreRenumbered, ZeroRulesAreAdded, ZerosAreAdded};

/// Rules are complete exactly if their left sides generate the reducible words. There are such rules to each degree.
pub fn criterion()
    ensures exact { ForRules CompletenessIsExact }
    ensures twice { ForRules TwiceTheDegreeIsEnough }
    ensures closed { ForRules CompleteIfClosed }
    ensures exist { (Z : List Exponents) (L : Letters) → AreLetters L → RulesExist Z L }
    ensures minimal { ForGeneratingRules MinimalLeftSidesAreExact }
    ensures reduced { ForGeneratingRules ReducedRulesAreExact }
    ensures divisors { ForGeneratingRules DivisorsGenerate }
{}

/// Which critical pairs are enough, what members of a pair have in common, and what a pair shows that is not joinable.
pub fn critical_pairs()
    ensures exist { ForRules CriticalPairsExist }
    ensures unique { CriticalPairsAreUnique }
    ensures coprime { (Z : List Exponents) (L : Letters) (R : List RewriteRule) →
        AreRewriteRules (IsMultiple Z) L R → CoprimePairsAreJoinable Z L R }
    ensures later { (Z : List Exponents) (L : Letters) (R : List RewriteRule) →
        AreRewriteRules (IsMultiple Z) L R → LaterPairsAreEnough Z L R }
    ensures connected { ForRules ConnectedPairsAreEnough }
    ensures chain { (R : List RewriteRule) (listed : List RulePair) → ChainsConnect R listed }
    ensures image { ForRules PairsHaveOneImage }
    ensures missed { ForRules PairsShowMissedWords }
{}

/// Normal forms exist. If the left sides generate the reducible words, they are the least words; two normal forms of
/// one image that differ show that they do not.
pub fn normal_forms()
    ensures exist { ForRules NormalFormsExist }
    ensures least { ForGeneratingRules NormalFormsAreLeast }
    ensures factors { ForGeneratingRules NormalFormsAreFactors }
    ensures missed { ForRules DifferencesShowMissedWords }
{}

/// What stays with more rules, more zeros and further leads at the end.
pub fn growing()
    ensures joinable { (R S : List RewriteRule) → JoinableStays R S }
    ensures rules { (L : Letters) (leads Y Z : List Exponents) (R : List RewriteRule) → RulesStay L leads Y Z R }
    ensures letters { (L : Letters) (leads : List Exponents) → AreLetters L →
        ((m : Exponents) → Contains leads m → IsMonomial (length L.degrees) m × (m ≢ [])) →
        NewLettersAreSmaller L leads }
{}

/// Leads at the end, all of one degree d, are numbered again: what stays to the degree d.
pub fn renumbering()
    ensures words { ForRenumberedLeads WordsAreRenumbered }
    ensures reducible { ForRenumberedLeads ReducibleWordsAreRenumbered }
    ensures least { ForRenumberedLeads LeastWordsAreRenumbered }
    ensures rules { ForRenumberedLeads RulesAreRenumbered }
{}

/// A completion, from the rules of leads and zeros on. Each step keeps `IsCompletion`, and at the end the rules are
/// complete. Two different normal forms of one image make a rule, and it joins what rewrites to them.
pub fn completion()
    ensures begin { (Z : List Exponents) (L : Letters) → AreLetters L → CompletionsBegin Z L }
    ensures orient { (Z : List Exponents) (L : Letters) → AreLetters L → DifferencesMakeRules Z L }
    ensures join { (R : List RewriteRule) → OrientedRulesJoin R }
    ensures above { ForRules (λ Z L R. NewPairsAreAbove L R) }
    ensures add { ForCompletions RulesAreAdded }
    ensures leave_out { ForCompletions ConnectedPairsAreLeftOut }
    ensures end { ForCompletions CompletionsEnd }
{}

/// A completion goes on with new leads, new zeros, or other rules whose left sides generate the reducible words.
pub fn resuming()
    ensures leads { ForCompletions LeadsAreAdded }
    ensures zeros { ForCompletions ZerosAreAdded }
    ensures zero_rules { ForCompletions ZeroRulesAreAdded }
    ensures rules { ForGeneratingRules CompletionsGoOn }
{}

/// Words over x of degree 1 with letters for x^2 and x^3: the rules found by hand are complete to every degree.
pub fn sample()
    ensures rules { AreRewriteRules (IsMultiple []) square_and_cube sample_rules }
    ensures reduced { AreReducedRules sample_rules }
    ensures complete { (c : ℕ) → AreComplete [] square_and_cube sample_rules c }
    ensures generates { (c : ℕ) → GeneratesReducible (IsMultiple []) square_and_cube sample_rules c }
{}
