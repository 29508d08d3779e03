//! The names that an automaton declares.
ghost use Rattle.std.specs.Prelude.{◌≡◌, [], ◌∷◌, map, string_bytes, OnOk};
ghost use Rattle.ioa_trees.specs.Trees.{For, pack_branches};
ghost use Rattle.ioa_trees.specs.Views.{view_automaton, view_branch, view_declared, view_entry, view_parameter, view_statement, view_statements, view_transition, view_variable};
ghost use Rattle.ioa_trees.specs.AutomatonRules as rule;
ghost use Rattle.ioa_check.specs.AutomatonParts as part;
ghost use Rattle.ioa_check.specs.Sets.{Adds};
ghost use Rattle.ioa_check.specs.AutomatonViews.{used_names};

use crate::used::Used;
use ioa_trees::tree::{
    Automaton, Branch, Declared, Entry, Parameter, Statement, Transition, Variable,
};
use std::alloc::AllocError;

fn use_name(used: &mut Used, name: &String) -> Result<(), AllocError>
    ensures { OnOk result (Adds (used_names used.new) (string_bytes name.now ∷ [])
        (used_names used.old)) }
{
    used.insert(name)?;
    Ok(())
}

fn use_formals(used: &mut Used, formals: &[Declared]) -> Result<(), AllocError>
    ensures { OnOk result (Adds (used_names used.new)
        (part.formal_names (map view_declared formals.now)) (used_names used.old)) }
{
    for declared in formals {
        use_name(used, &declared.name)?;
    }
    Ok(())
}

fn use_variables(used: &mut Used, variables: &[Variable]) -> Result<(), AllocError>
    ensures { OnOk result (Adds (used_names used.new)
        (part.variable_names (map view_variable variables.now)) (used_names used.old)) }
{
    for variable in variables {
        use_name(used, &variable.declared.name)?;
    }
    Ok(())
}

fn use_parameter(used: &mut Used, parameter: &Parameter) -> Result<(), AllocError>
    ensures { OnOk result (Adds (used_names used.new)
        (rule.typed_names (view_parameter parameter.now ∷ [])) (used_names used.old)) }
{
    match parameter {
        Parameter::Constant(_) => Ok(()),
        Parameter::Typed(declared) => {
            use_name(used, &declared.name)?;
            Ok(())
        }
    }
}

fn use_typed(used: &mut Used, parameters: &[Parameter]) -> Result<(), AllocError>
    ensures { OnOk result (Adds (used_names used.new)
        (rule.typed_names (map view_parameter parameters.now)) (used_names used.old)) }
{
    for parameter in parameters {
        use_parameter(used, parameter)?;
    }
    Ok(())
}

/// Puts the names of the typed parameters of all entries among the names.
pub fn use_parameters(used: &mut Used, entries: &[Entry]) -> Result<(), AllocError>
    ensures { OnOk result (Adds (used_names used.new)
        (rule.entry_names (map view_entry entries.now)) (used_names used.old)) }
{
    for entry in entries {
        use_typed(used, entry.parameters.as_slice())?;
    }
    Ok(())
}

#[cycle(using_loops)]
fn use_statement(used: &mut Used, statement: &Statement) -> Result<(), AllocError>
    ensures { OnOk result (Adds (used_names used.new) (rule.loops_of (view_statement statement.now))
        (used_names used.old)) }
{
    match statement {
        Statement::Assign(_, _, _) => Ok(()),
        Statement::If(branches, others) => {
            use_branches(used, branches.as_slice())?;
            use_loops(used, others.as_slice())?;
            Ok(())
        }
        Statement::For(declared, body) => {
            use_loop(used, declared, body.as_slice())?;
            Ok(())
        }
    }
}

#[cycle(using_loops)]
fn use_loop(used: &mut Used, declared: &Declared, body: &[Statement]) -> Result<(), AllocError>
    ensures { OnOk result (Adds (used_names used.new)
        (rule.loops_of (For (view_declared declared.now) (view_statements body.now)))
        (used_names used.old)) }
{
    use_name(used, &declared.name)?;
    use_loops(used, body)?;
    Ok(())
}

#[cycle(using_loops)]
fn use_branch(used: &mut Used, branch: &Branch) -> Result<(), AllocError>
    ensures { OnOk result (Adds (used_names used.new) (rule.all_loops (view_branch branch.now).1)
        (used_names used.old)) }
{
    use_loops(used, branch.body.as_slice())?;
    Ok(())
}

#[cycle(using_loops)]
fn use_branches(used: &mut Used, branches: &[Branch]) -> Result<(), AllocError>
    ensures { OnOk result (Adds (used_names used.new)
        (rule.loops_in (pack_branches (map view_branch branches.now))) (used_names used.old)) }
{
    for branch in branches {
        use_branch(used, branch)?;
    }
    Ok(())
}

// The variables of loops.
#[cycle(using_loops)]
fn use_loops(used: &mut Used, statements: &[Statement]) -> Result<(), AllocError>
    ensures { OnOk result (Adds (used_names used.new)
        (rule.all_loops (view_statements statements.now)) (used_names used.old)) }
{
    for statement in statements {
        use_statement(used, statement)?;
    }
    Ok(())
}

fn use_transitions(used: &mut Used, transitions: &[Transition]) -> Result<(), AllocError>
    ensures { OnOk result (Adds (used_names used.new)
        (rule.all_of (λ t. rule.all_loops t.eff) (map view_transition transitions.now))
        (used_names used.old)) }
{
    for transition in transitions {
        use_loops(used, transition.eff.as_slice())?;
    }
    Ok(())
}

/// Puts all names that an automaton declares among the names: formals, typed parameters, state variables and loop variables.
pub fn use_locals(used: &mut Used, automaton: &Automaton) -> Result<(), AllocError>
    ensures { OnOk result (Adds (used_names used.new) (rule.locals (view_automaton automaton.now))
        (used_names used.old)) }
{
    use_formals(used, automaton.formals.as_slice())?;
    use_parameters(used, automaton.entries.as_slice())?;
    use_variables(used, automaton.variables.as_slice())?;
    use_transitions(used, automaton.transitions.as_slice())?;
    Ok(())
}
