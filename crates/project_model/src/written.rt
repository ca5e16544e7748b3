use fsm_base::Text;
use project_definitions::Body;
use regex_ast::Raw;

/// A definition as sources write it.
#[derive(Debug, Drop)]
pub struct WrittenDefine {
    /// The defined name.
    pub name: Text,
    /// The line of its statement, counted from 1.
    pub line: u32,
    /// The file of its statement.
    pub file: Text,
    /// What the name stands for.
    pub body: Body<Raw>,
}
