//! The completion of a program's words for bash. `docs/completion` holds its text.

use clap::{Arg, Command};
use std::alloc::{AllocError, Global};

/// The completion of a program's words for bash: the names of its commands, and the options of each.
///
/// # Errors
///
/// Only if memory runs out.
pub fn completion(alloc: Global, program: &Command<'_>) -> Result<String, AllocError> {
    let name = program.get_name();
    let mut names = String::new(alloc);
    let mut cases = String::new(alloc);
    for command in program.get_subcommands() {
        let name = command.get_name();
        let options = options(alloc, command.get_arguments())?;
        let options = options.as_str();
        names.push_str(&format!(in alloc; " {name}")?)?;
        cases.push_str(&format!(in alloc; "        {name}) options='{options}' ;;\n")?)?;
    }
    let options = options(alloc, program.get_arguments())?;
    let (names, cases, options) = (names.as_str(), cases.as_str(), options.as_str());
    format!(in alloc;
        "# Completion of the words of {name} for bash.
_{name}() {{
    local word=${{COMP_WORDS[COMP_CWORD]}} commands='{names}' options=''
    case ${{COMP_WORDS[1]}} in
        help) options=' --man --completion' ;;
{cases}        *) options='{options}' ;;
    esac
    COMPREPLY=()
    if [[ $word == -* ]]; then
        COMPREPLY=($(compgen -W \"$options\" -- \"$word\"))
    elif [[ $COMP_CWORD == 1 || ($COMP_CWORD == 2 && ${{COMP_WORDS[1]}} == help) ]]; then
        COMPREPLY=($(compgen -W \"$commands\" -- \"$word\"))
    fi
}}
complete -o default -F _{name} {name}
"
    )
}

/// The options among arguments, each after a space.
fn options(alloc: Global, arguments: &[Arg<'_>]) -> Result<String, AllocError> {
    let mut text = String::new(alloc);
    for argument in arguments {
        if let Some(short) = argument.get_short() {
            text.push_str(&format!(in alloc; " -{short}")?)?;
        }
        if let Some(long) = argument.get_long() {
            text.push_str(&format!(in alloc; " --{long}")?)?;
        }
    }
    Ok(text)
}
