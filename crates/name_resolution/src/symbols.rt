ghost use Rattle.std.specs.Prelude.{◌≡◌};
ghost use Rattle.project_meaning.specs.Leaves.{written};

use regex_ast::Raw;

/// The text of the symbol that a leaf stands for.
pub fn symbol_text(leaf: &Raw) -> &str
    ensures { result.now ≡ written leaf.now }
{
    match leaf {
        Raw::Run(text) => text.as_str(),
        Raw::Quoted(text) => text.as_str(),
    }
}
