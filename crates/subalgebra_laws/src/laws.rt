//! The laws, over every presentation. `specs/Statements` has each law by its name.
ghost use Rattle.std.specs.Prelude.{[], ◌++◌, ◌≤◌, List, ℕ};
ghost use Rattle.monomial_order.specs.declared.terms.Term.{Term};
ghost use Rattle.monomial_order.specs.Monomial.{Exponents};
ghost use Rattle.polynomials.specs.Subalgebra.{IsPresentation, IsReducedBasis, Presented, AreZerosTo, IsDecidedTo};
ghost use Rattle.subalgebra_laws.specs.Bases.{AreMonicElements, AreStandardAfter, HasCombinationsTo, HaveLeadsFrom, IsIdealClosedAt};
ghost use Rattle.subalgebra_laws.specs.Statements.{CheckingIsExact, ClosedIdealsAreDecided, ClosedIdealsKeepZeros, CombinationsHaveGeneratedLeads, CombinationsStay, CongruentAreCombinations, ElementsAreCombinations, EndsCanBeExchanged, ForClosedBases, ForDecidedIdeals, ForMonicElements, ForMonicMembers, ForNewElements, ForNextElements, ForPresentations, ForStandardElements, FrontsAreReduced, IncreasingListsAreEqual, IrreducibleWordsAreCombinations, LeadsAreExactly, LeadsAreGenerated, LeadsDetermineLinearSums, LeastWordsAreIrreducible, LowMembersAreCombinations, MembersAreCombinations, MinimalWordsStay, MultiplesAreCombinations, NextAreCombinations, NextBasisIsReduced, OrderDoesNotMatter, ProductsAreImages, ProductsSplit, RemaindersAreUnique, RemaindersDecideMembership, RestsDecideCombinations, StandardProductsLead, SumsAndRestsAreUnique, SumsAreCombinations, SumsAreUnique, SumsHaveTopWords, SumsOfSWordsAreMembers, SumsStay, SumsWithoutNewLettersStay, SWordsAreMembers, TopImagesAreLeast, TopImagesLead, TopImagesLeadNormalForms, ValuesAreCongruent, ValuesCompose, ValuesStay, WordsAreDecided, ZerosDecide, ZerosRepresentTheIdeal};
ghost use Rattle.polynomials.specs.Polynomial.{Polynomial};

use word_field::Field;

/// The greatest image in a sum of irreducible s-words over monic elements leads its value.
pub fn combinations<F: Field>()
    ensures tops { ForMonicElements F.Elem SumsHaveTopWords }
    ensures leads { ForMonicElements F.Elem TopImagesLead }
    ensures normal_forms { ForMonicElements F.Elem TopImagesLeadNormalForms }
    ensures least { ForMonicElements F.Elem TopImagesAreLeast }
    ensures generated { ForMonicElements F.Elem CombinationsHaveGeneratedLeads }
{}

/// Values of values, and values at congruent polynomials.
pub fn compositions<F: Field>()
    ensures values { ForPresentations F.Elem ValuesCompose }
    ensures congruent { ForPresentations F.Elem ValuesAreCongruent }
{}

/// What combinations are closed under.
pub fn combining<F: Field>()
    ensures sums { ForMonicElements F.Elem SumsAreCombinations }
    ensures multiples { ForMonicElements F.Elem MultiplesAreCombinations }
    ensures congruent { ForMonicElements F.Elem CongruentAreCombinations }
    ensures words { ForMonicElements F.Elem IrreducibleWordsAreCombinations }
{}

/// S-words and products of leads; over members of the subalgebra the values of s-words are members.
pub fn words<F: Field>()
    ensures images { ForMonicElements F.Elem ProductsAreImages }
    ensures least { (P : Presented F.Elem) (S : List (Polynomial F.Elem)) → LeastWordsAreIrreducible P S }
    ensures members { ForMonicMembers F.Elem SWordsAreMembers }
    ensures sums { ForMonicMembers F.Elem SumsOfSWordsAreMembers }
{}

/// Sums of irreducible s-words are unique, with or without a rest. So are remainders.
pub fn uniqueness<F: Field>()
    ensures sums { ForMonicElements F.Elem SumsAreUnique }
    ensures remainders { ForPresentations F.Elem RemaindersAreUnique }
    ensures members { ForPresentations F.Elem RemaindersDecideMembership }
    ensures rests { ForMonicElements F.Elem SumsAndRestsAreUnique }
    ensures combinations { ForMonicElements F.Elem RestsDecideCombinations }
    ensures linear { ForMonicElements F.Elem LeadsDetermineLinearSums }
    ensures lists { ForPresentations F.Elem IncreasingListsAreEqual }
{}

/// The criterion to a degree: it is enough that generators and minimal reducible s-words are combinations.
pub fn criterion<F: Field>()
    ensures members { ForDecidedIdeals F.Elem (λ P S c.
        AreMonicElements P S → HasCombinationsTo P c S → MembersAreCombinations P S c) }
    ensures leads { ForDecidedIdeals F.Elem (λ P S c.
        AreMonicElements P S → HasCombinationsTo P c S → LeadsAreGenerated P S c) }
{}

/// Elements T are added at the end of a list S, in the degree d or above it: what stays to the degree d.
pub fn growing<F: Field>()
    ensures values { (P : Presented F.Elem) (S T : List (Polynomial F.Elem)) → ValuesStay P S T }
    ensures products { (P : Presented F.Elem) (S T : List (Polynomial F.Elem)) (d : ℕ) →
        IsPresentation P → AreMonicElements P (S ++ T) → HaveLeadsFrom P d T → ProductsSplit P S T d }
    ensures combinations { ForNewElements F.Elem CombinationsStay }
    ensures sums { ForNewElements F.Elem SumsStay }
    ensures old_sums { (P : Presented F.Elem) (S T : List (Polynomial F.Elem)) →
        IsPresentation P → AreMonicElements P (S ++ T) → SumsWithoutNewLettersStay P S T }
    ensures ends { ForNewElements F.Elem EndsCanBeExchanged }
    ensures elements { ForStandardElements F.Elem ElementsAreCombinations }
    ensures minimal { ForStandardElements F.Elem MinimalWordsStay }
    ensures differ { ForNextElements F.Elem (λ P S T d. AreStandardAfter P d S T) }
    ensures order { ForStandardElements F.Elem OrderDoesNotMatter }
    ensures step { ForStandardElements F.Elem NextAreCombinations }
    ensures next { ForNextElements F.Elem NextBasisIsReduced }
{}

/// Over a reduced basis the members of the subalgebra are combinations, homogeneous or not.
pub fn subduction<F: Field>()
    ensures { ForDecidedIdeals F.Elem (λ P S c. IsReducedBasis P c S → LowMembersAreCombinations P S c) }
{}

/// The leads of a reduced basis generate exactly the leads of the subalgebra. One to a degree after which nothing
/// new comes does so in every degree, and is the reduced basis to each greater one.
pub fn closed_basis<F: Field>()
    ensures generated { ForMonicMembers F.Elem StandardProductsLead }
    ensures leads { (P : Presented F.Elem) (S : List (Polynomial F.Elem)) (c : ℕ) →
        IsPresentation P → IsReducedBasis P c S → LeadsAreExactly P S c }
    ensures all_leads { ForClosedBases F.Elem (λ P S _ c. LeadsAreExactly P S c) }
    ensures basis { ForClosedBases F.Elem (λ P S D c. D ≤ c → IsReducedBasis P c S) }
{}

/// Reduced bases to lower degrees.
pub fn lower_bases<F: Field>()
    ensures empty { ForPresentations F.Elem (λ P. IsReducedBasis P 0 []) }
    ensures fronts { ForPresentations F.Elem FrontsAreReduced }
{}

/// What is known of the leads of the ideal decides which words are reducible.
pub fn decisions<F: Field>()
    ensures words { ForDecidedIdeals F.Elem (λ P S c. AreMonicElements P S → WordsAreDecided P S c) }
    ensures all_words { ForDecidedIdeals F.Elem (λ P S D.
        AreMonicElements P S → IsIdealClosedAt P D → (c : ℕ) → WordsAreDecided P S c) }
    ensures zeros { ForPresentations F.Elem ZerosDecide }
    ensures zero_words { ForMonicElements F.Elem (λ P S. (c : ℕ) (zeros : List Exponents) →
        AreZerosTo P c zeros → ZerosRepresentTheIdeal P S c zeros) }
    ensures all_zeros { ForPresentations F.Elem ClosedIdealsKeepZeros }
    ensures all_monomials { ForPresentations F.Elem ClosedIdealsAreDecided }
{}

/// The reduced basis by conditions on its elements, on the generators and on the minimal reducible s-words.
pub fn checked_basis<F: Field>()
    ensures { ForPresentations F.Elem CheckingIsExact }
{}
