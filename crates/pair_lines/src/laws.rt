ghost use Rattle.pair_lines.specs.Laws.{PassingIsMeant};

use pair_test::passing_is_related;
use two_level::grammar_is_spelled;

/// The law that a name whose rules are ready relates the two sides, without zeros, of a string of its feasible pairs that breaks
/// none of them. It does nothing when it runs.
pub fn passing_is_meant()
    ensures { PassingIsMeant }
{
    // Laws: what passes is related by numbers, and what is related by numbers is related by texts.
    passing_is_related();
    grammar_is_spelled();
}
