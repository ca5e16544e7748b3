ghost use Rattle.std.specs.Prelude.{◌≡◌};

use regex_ast::{Expr, Raw};

/// An expression that was read. Its drop is a call: that of an expression by itself stands written out, form by form,
/// wherever one may be dropped.
pub struct Parsed {
    /// The expression.
    pub expr: Expr<Raw>,
}

impl Parsed {
    /// The expression.
    pub fn into_expr(self) -> Expr<Raw>
        ensures { result ≡ self.expr }
    {
        let Parsed { expr } = self;
        expr
    }
}

impl Drop for Parsed {
    fn drop(self) {
        let Parsed { expr: _ } = self;
    }
}
