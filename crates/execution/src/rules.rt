//! The rules of executions, and their test.

ghost use Rattle.execution.specs.Formed.{FormedExactly};

/// The test that every execution passes is exact: it passes what keeps the rules, and nothing else.
pub fn rules_are_tested()
    ensures { FormedExactly }
{}
