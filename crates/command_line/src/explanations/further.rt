//! What else is wrong with a module than the rule of its refusal says. `tests/explanations` holds the
//! lines.

use crate::explanations::sentences::{source_sentence, table_sentence};
use crate::order::ModuleNames;
use apex_types::Name;
use finding_lines::{DidYouMean, Form, Report, Shown, file_lines, nearest};
use image::load_image;
use module::BuildFault;
use pal_base::parse::parse;
use pal_base::syntax::{DeclarationKind, Program};
use source_findings::{GivenSource, declared_name, explain_further};
use std::alloc::{AllocError, Global};
use window_table::{PartitionRow, TableFault, read_table};

/// The files of a module, and their texts.
#[derive(Clone, Copy)]
pub struct ModuleTexts<'a> {
    pub names: ModuleNames<'a>,
    pub table: &'a [u8],
    pub sources: &'a [&'a [u8]],
}

impl<'a> ModuleTexts<'a> {
    /// The source of a partition, which has this place in the list.
    fn source_of(self, row: &'a PartitionRow, place: usize) -> Option<GivenSource<'a>> {
        let (file, text) = (self.names.sources.get(place)?, self.sources.get(place)?);
        Some(GivenSource {
            file,
            partition: row.name.as_str(),
            period: row.period,
            text,
        })
    }
}

/// What else is wrong with a refused module, or nothing if memory runs out.
pub fn explain_rest(
    alloc: Global,
    is_plain: bool,
    module: ModuleTexts<'_>,
    whole: &BuildFault,
) -> Option<String> {
    match whole {
        BuildFault::Table(rule) => of_table(alloc, is_plain, module, *rule).ok(),
        BuildFault::Sources => of_number(alloc, is_plain, module),
        BuildFault::Pal { partition, fault } => {
            let rule = format!(in alloc; "{whole}").ok()?;
            let form = form(is_plain, rule.as_str());
            of_sources(alloc, form, module, partition, fault.number())
        }
        BuildFault::Compile { .. } | BuildFault::Memory => None,
    }
}

/// The rules that a table breaks besides the first one.
fn of_table(
    alloc: Global,
    is_plain: bool,
    module: ModuleTexts<'_>,
    first: TableFault,
) -> Result<String, AllocError> {
    let mut lines = String::new(alloc);
    let file = module.names.table;
    let found = table_findings::explain_further(alloc, file, module.table, first, is_plain)?;
    for told in &found {
        push_rule(
            &mut lines,
            is_plain,
            table_sentence(told.rule),
            told.lines.as_str(),
        )?;
    }
    Ok(lines)
}

/// Adds what is wrong by a rule, after the rule's sentence if it is for people.
fn push_rule(
    lines: &mut String,
    is_plain: bool,
    sentence: &str,
    told: &str,
) -> Result<(), AllocError> {
    if is_plain {
        lines.push_str(sentence)?;
        lines.push_str("\n")?;
    }
    lines.push_str(told)
}

/// How many sources are wanted, and in which order, and which are given.
fn of_number(alloc: Global, is_plain: bool, module: ModuleTexts<'_>) -> Option<String> {
    let Ok(table) = read_table(alloc, module.table) else {
        return None;
    };
    let rows = table.partitions.as_slice();
    let (wanted, given) = (rows.len(), module.names.sources.len());
    let (order, files) = (
        names_of(alloc, rows).ok()?,
        joined(alloc, module.names.sources).ok()?,
    );
    let (order, files) = (order.as_str(), files.as_str());
    let said = format!(in alloc;
        "the number of partitions is {wanted}, and that of sources {given}: {files}"
    ).ok()?;
    let which = which_sources(alloc, rows, module.names).ok()?;
    let which = which.as_str();
    let advice = format!(in alloc;
        "Give one for each partition, in this order: {order}.{which}"
    ).ok()?;
    let report = Report {
        file: module.names.table,
        form: form(is_plain, "sources"),
    };
    file_lines(alloc, report, said.as_str(), advice.as_str()).ok()
}

/// Which sources are missing or too many, as far as the names of their files say, and what is taken
/// for IMAGE.
fn which_sources(
    alloc: Global,
    rows: &[PartitionRow],
    names: ModuleNames<'_>,
) -> Result<String, AllocError> {
    if names.sources.len() > rows.len() {
        let mut needless = needless_files(alloc, rows, names.sources)?;
        if needless.len() == names.sources.len() {
            needless.clear();
        }
        return sentence_on(alloc, " Too many by its name:", needless.as_slice());
    }
    let mut lacking = lacking_names(alloc, rows, names.sources)?;
    if lacking.len() == rows.len() {
        lacking.clear();
    }
    let mut text = sentence_on(alloc, " No source has the name of", lacking.as_slice())?;
    if let Some(image) = names.image {
        let told = format!(in alloc; " IMAGE, the file that is written, is here {image}.")?;
        text.push_str(told.as_str())?;
    }
    Ok(text)
}

/// A sentence on these words, or nothing if there are none.
fn sentence_on(alloc: Global, said: &str, words: &[&str]) -> Result<String, AllocError> {
    if words.is_empty() {
        return Ok(String::new(alloc));
    }
    let words = joined(alloc, words)?;
    let words = words.as_str();
    format!(in alloc; "{said} {words}.")
}

/// The partitions whose names no files of sources have.
fn lacking_names<'a>(
    alloc: Global,
    rows: &'a [PartitionRow],
    files: &[&str],
) -> Result<Vec<&'a str>, AllocError> {
    let mut names = Vec::new(alloc);
    for row in rows {
        if !has_file(files, row.name.as_str()) {
            names.push(row.name.as_str())?;
        }
    }
    Ok(names)
}

/// The files that have the name of no partition, and those with the name of a file before.
fn needless_files<'a>(
    alloc: Global,
    rows: &[PartitionRow],
    files: &'a [&'a str],
) -> Result<Vec<&'a str>, AllocError> {
    let mut needless = Vec::new(alloc);
    let mut before = Vec::new(alloc);
    for file in files {
        let name = name_in(file);
        if !has_row(rows, name) || has_file(before.as_slice(), name) {
            needless.push(*file)?;
        }
        before.push(*file)?;
    }
    Ok(needless)
}

fn has_row(rows: &[PartitionRow], name: &str) -> bool {
    for row in rows {
        if row.name.as_str() == name {
            return true;
        }
    }
    false
}

fn has_file(files: &[&str], name: &str) -> bool {
    for file in files {
        if name_in(file) == name {
            return true;
        }
    }
    false
}

/// The part of a file's name that may be that of a partition: without folders and ending.
fn name_in(file: &str) -> &str {
    let last = match file.rsplit_once('/') {
        Some((_, last)) => last,
        None => file,
    };
    match last.split_once('.') {
        Some((name, _)) => name,
        None => last,
    }
}

fn form(is_plain: bool, rule: &str) -> Form<'_> {
    if is_plain {
        Form::Plain
    } else {
        Form::Json(rule)
    }
}

/// The names of partitions, with commas between them.
fn names_of(alloc: Global, rows: &[PartitionRow]) -> Result<String, AllocError> {
    let mut names = Vec::new(alloc);
    for row in rows {
        names.push(row.name.as_str())?;
    }
    joined(alloc, names.as_slice())
}

/// Words with commas between them.
fn joined(alloc: Global, words: &[&str]) -> Result<String, AllocError> {
    let mut text = String::new(alloc);
    for word in words {
        if !text.is_empty() {
            text.push_str(", ")?;
        }
        text.push_str(word)?;
    }
    Ok(text)
}

/// What else is wrong with the sources of an accepted table, where the source of this partition is
/// refused by the rule of this number.
fn of_sources(
    alloc: Global,
    form: Form<'_>,
    module: ModuleTexts<'_>,
    refused: &Name,
    number: u8,
) -> Option<String> {
    let Ok(table) = read_table(alloc, module.table) else {
        return None;
    };
    let rows = table.partitions.as_slice();
    let mut lines = String::new(alloc);
    for (place, row) in rows.iter().enumerate() {
        let source = module.source_of(row, place)?;
        add_order(alloc, &mut lines, form, source, rows).ok()?;
    }
    for (place, row) in rows.iter().enumerate() {
        let source = module.source_of(row, place)?;
        let is_refused = row.name.as_bytes() == refused.as_bytes();
        let after = if is_refused { number } else { 0 };
        add_source(alloc, &mut lines, form, source, after).ok()?;
    }
    Some(lines)
}

/// Adds what is wrong with the source of a partition by the rules after the one of this number.
fn add_source(
    alloc: Global,
    lines: &mut String,
    form: Form<'_>,
    source: GivenSource<'_>,
    after: u8,
) -> Result<(), AllocError> {
    let is_plain = matches!(form, Form::Plain);
    let found = explain_further(alloc, source, after, is_plain)?;
    for told in &found {
        let sentence = source_sentence(told.rule);
        push_rule(lines, is_plain, sentence, told.lines.as_str())?;
    }
    Ok(())
}

/// Adds that the ports of a source are rather those of another partition.
fn add_order(
    alloc: Global,
    lines: &mut String,
    form: Form<'_>,
    source: GivenSource<'_>,
    rows: &[PartitionRow],
) -> Result<(), AllocError> {
    let Ok(program) = parse(alloc, source.text) else {
        return Ok(());
    };
    let mut own: usize = 0;
    for row in rows {
        if row.name.as_bytes() == source.partition.as_bytes() {
            own = ports_of(row, &program);
        }
    }
    for row in rows {
        if own < ports_of(row, &program) {
            let (better, order) = (row.name.as_str(), names_of(alloc, rows)?);
            let order = order.as_str();
            let said = format!(in alloc; "its ports fit the partition {better} better")?;
            let advice = format!(in alloc; "Give the sources in the order of the table: {order}.")?;
            let report = Report {
                file: source.file,
                form,
            };
            let told = file_lines(alloc, report, said.as_str(), advice.as_str())?;
            return lines.push_str(told.as_str());
        }
    }
    Ok(())
}

/// How many ports of a source are ports of a partition.
fn ports_of(row: &PartitionRow, program: &Program) -> usize {
    let mut count: usize = 0;
    for declaration in &program.declarations {
        if let DeclarationKind::Port = declaration.kind {
            if has_port(row, declared_name(program, declaration)) {
                count = count.saturating_add(1);
            }
        }
    }
    count
}

fn has_port(row: &PartitionRow, name: &str) -> bool {
    for port in &row.ports {
        if port.name.as_bytes() == name.as_bytes() {
            return true;
        }
    }
    false
}

/// The partitions of an image that has none of this name, or nothing if memory runs out.
pub fn partitions_of(
    alloc: Global,
    report: Report<'_>,
    image: &[u8],
    name: &str,
) -> Option<String> {
    let Ok(image) = load_image(alloc, image) else {
        return None;
    };
    let mut names = Vec::new(alloc);
    for item in &image.partitions {
        names.push(item.row.name.as_str()).ok()?;
    }
    let all = joined(alloc, names.as_slice()).ok()?;
    let (all, shown) = (all.as_str(), Shown(name.as_bytes()));
    let said = format!(in alloc; "`{shown}` is none of its partitions: {all}").ok()?;
    let advice = match nearest(name.as_bytes(), names.as_slice()) {
        Some(near) => format!(in alloc; "{}", DidYouMean(near)).ok()?,
        None => String::from_str(alloc, "Write the name of one of them.").ok()?,
    };
    file_lines(alloc, report, said.as_str(), advice.as_str()).ok()
}
