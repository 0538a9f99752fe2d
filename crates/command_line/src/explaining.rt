//! Explanations of refusals.

ghost use Rattle.std.specs.Prelude.{◌≡◌, Some, map, option_map, string_bytes, IfOk, IfSome};
ghost use Rattle.module.specs.Costs.{AreCosts};
ghost use Rattle.module_meaning.specs.Accepted.{IsTable};
ghost use Rattle.window_table.specs.Views.{partition_view, table_of};
ghost use Rattle.finding_lines.specs.Reports.{form_of, report_of};
ghost use Rattle.command_line.specs.Explained.{HasReason, IsCompleted, IsExplained, IsExplainedWith, IsLengthExplained, IsLengthExplainedWith, IsNoted, IsNotedAs, IsNotedBy, IsNoteOf, IsOfImage, IsOfInputs, IsOfReplay, IsOfRun, build_sentence, costed_file, costed_of, files_of, form_in, inputs_sentence, is_of_write, object_with, report_in, report_on, run_sentence, sentence_in, sentence_of, sentence_of_replay, source_file, source_of, told_text, write_text};

use crate::explanations::{
    CommandFault, ModuleTexts, command_sentence, device_sentence, explain_devices, explain_image,
    explain_inputs, explain_length, explain_rest, explain_source, explain_table, explanation_of,
    file_sentence, image_sentence, partitions_of, replay_sentence, source_sentence, table_sentence,
    write_sentence,
};
use crate::order::ModuleNames;
use crate::outcome::Outcome;
use crate::refusal::{Refusal, Rule};
use apex_types::Name;
use command_words::Failure;
use finding_lines::{Form, Report, rule_line};
use image::ImageFault;
use module::{BuildFault, InputsFault, PartitionCosts, RunFault, costs};
use pal::BodyCost;
use pal_base::fault::PalFault;
use std::alloc::{AllocError, Global};
use std::fmt;
use streams::Reason;
use window_table::{ModuleTable, PartitionRow, read_table};

/// How a refusal is explained.
#[derive(Clone, Copy, PartialEq, Eq)]
pub enum Style {
    /// In plain words.
    Plain,
    /// In JSON objects, one a line.
    Json,
}

impl Style {
    /// How findings on a file by that rule are reported.
    fn report<'a>(self, rule: &'a str, file: &'a str) -> Report<'a>
        ensures { report_of result ≡ report_in self rule.now file.now }
    {
        let form = self.form(rule);
        Report { file, form }
    }

    /// The form of findings by that rule.
    fn form(self, rule: &str) -> Form<'_>
        ensures { form_of result ≡ form_in self rule.now }
    {
        match self {
            Style::Plain => Form::Plain,
            Style::Json => Form::Json(rule),
        }
    }
}

/// The explanation of a refused file, for the lines after that of its refusal.
#[derive(Drop)]
pub enum Note {
    /// No explanation is wanted.
    Unwanted,
    /// No file is refused so far.
    Wanted(Style),
    /// The lines that explain the refusal of a file, to their end, and what else is wrong.
    Explained(String, String),
}

impl Note {
    /// Nothing is noted yet.
    pub fn new(is_wanted: bool, style: Style) -> Note {
        if is_wanted {
            Note::Wanted(style)
        } else {
            Note::Unwanted
        }
    }

    /// Notes why standard output took no more bytes, if an explanation of that is wanted and there is
    /// memory for it.
    pub fn explain_write(
        &mut self,
        alloc: Global,
        outcome: &Result<Outcome, Failure<Refusal>>,
        reason: Reason,
    )
        ensures { HasReason outcome.now reason self.old self.new }
    {
        let Err(Failure::Refused(refusal)) = outcome else {
            return;
        };
        let Note::Wanted(style) = *self else {
            return;
        };
        if !is_of_write(refusal) {
            return;
        }
        if let Ok(text) = write_text(alloc, style, refusal, reason) {
            *self = Note::Explained(text, String::new(alloc));
        }
    }

    /// Notes the object of a refusal without a finding, if objects are wanted and there is memory for
    /// it.
    pub fn complete(&mut self, alloc: Global, outcome: &Result<Outcome, Failure<Refusal>>)
        ensures { IsCompleted outcome.now self.old self.new }
    {
        let Err(Failure::Refused(refusal)) = outcome else {
            return;
        };
        let Note::Wanted(Style::Json) = self else {
            return;
        };
        if let Ok(text) = object_with(alloc, refusal, sentence_of(refusal)) {
            *self = Note::Explained(text, String::new(alloc));
        }
    }

    /// Notes the explanation of a refused table or source, if it is wanted and there is memory for
    /// it.
    pub fn explain(
        &mut self,
        alloc: Global,
        names: ModuleNames<'_>,
        table: &[u8],
        sources: &[&[u8]],
        fault: &BuildFault,
    )
        ensures { IsNoteOf names.entry.table.now table.now
            (map (λ s. s.now) names.entry.sources.now) (map (λ s. s.now) sources.now) fault.now
            self.old self.new }
    {
        let Note::Wanted(style) = *self else {
            return;
        };
        if let Some(text) = explanation(alloc, style, names, table, sources, fault) {
            let module = ModuleTexts {
                names,
                table,
                sources,
            };
            let more = explain_rest(alloc, style == Style::Plain, module, fault);
            *self = noted_as(alloc, style, text, more);
        }
    }
}

/// The note of an explanation and of what else is wrong, if one of them has lines.
fn noted_as(alloc: Global, style: Style, text: String, more: Option<String>) -> Note
    ensures { IsNotedAs style (string_bytes text) result }
{
    match more {
        Some(more) => Note::Explained(text, more),
        None => {
            if text.is_empty() {
                Note::Wanted(style)
            } else {
                Note::Explained(text, String::new(alloc))
            }
        }
    }
}

/// What is noted for the report of a refusal.
#[derive(Drop)]
pub struct Noted {
    /// The words ask for an explanation.
    pub asked: bool,
    pub note: Note,
}

/// An image and a text for it: the names of their files, and their bytes.
#[derive(Clone, Copy)]
pub struct RunFiles<'a> {
    pub image_name: &'a str,
    pub image: &'a [u8],
    pub text_name: &'a str,
    pub text: &'a [u8],
}

impl Note {
    /// Notes the explanation of a refused image, if it is wanted and there is memory for it.
    pub fn explain_image(&mut self, alloc: Global, file: &str, bytes: &[u8], fault: ImageFault)
        ensures { IsNotedBy (λ style. IsOfImage style file.now bytes.now fault) self.old self.new }
    {
        let Note::Wanted(style) = *self else {
            return;
        };
        if let Some(text) = image_explanation(alloc, style, file, bytes, fault) {
            *self = Note::Explained(text, String::new(alloc));
        }
    }

    /// Notes the explanation of a run whose image or device text is refused, if it is wanted and there
    /// is memory for it.
    pub fn explain_run(&mut self, alloc: Global, files: RunFiles<'_>, fault: &RunFault)
        ensures { IsNotedBy (λ style. IsOfRun style (files_of files.entry) fault.now) self.old
            self.new }
    {
        let Note::Wanted(style) = *self else {
            return;
        };
        if let Some(text) = run_explanation(alloc, style, files, fault) {
            *self = Note::Explained(text, String::new(alloc));
        }
    }

    /// Notes the explanation of a replay of a partition whose image or replay text is refused, if it is
    /// wanted and there is memory for it.
    pub fn explain_replay(
        &mut self,
        alloc: Global,
        files: RunFiles<'_>,
        partition: &str,
        fault: &RunFault,
    )
        ensures { IsNotedBy
            (λ style. IsOfReplay style (files_of files.entry) partition.now fault.now) self.old
            self.new }
    {
        let Note::Wanted(style) = *self else {
            return;
        };
        if let Some(text) = replay_explanation(alloc, style, files, partition, fault) {
            let is_lacking = lacks_partition(fault);
            let known = partition_lines(alloc, style, files, partition, is_lacking);
            *self = noted_as(alloc, style, text, known);
        }
    }

    /// Notes the explanation of inputs whose image or device text is refused, if it is wanted and there
    /// is memory for it.
    pub fn explain_inputs(
        &mut self,
        alloc: Global,
        files: RunFiles<'_>,
        partition: &str,
        fault: &InputsFault,
    )
        ensures { IsNotedBy (λ style. IsOfInputs style (files_of files.entry) fault.now) self.old
            self.new }
    {
        let Note::Wanted(style) = *self else {
            return;
        };
        if let Some(text) = inputs_explanation(alloc, style, files, fault) {
            let is_lacking = lacks_partition_of_inputs(fault);
            let known = partition_lines(alloc, style, files, partition, is_lacking);
            *self = noted_as(alloc, style, text, known);
        }
    }
}

fn lacks_partition(fault: &RunFault) -> bool {
    matches!(fault, RunFault::Partition)
}

fn lacks_partition_of_inputs(fault: &InputsFault) -> bool {
    matches!(fault, InputsFault::Partition)
}

/// The partitions of an image that lacks this one, if there is memory for it.
fn partition_lines(
    alloc: Global,
    style: Style,
    files: RunFiles<'_>,
    partition: &str,
    is_lacking: bool,
) -> Option<String> {
    if !is_lacking {
        return None;
    }
    let report = style.report("partition", files.image_name);
    partitions_of(alloc, report, files.image, partition)
}

/// The sentence of a rule, where objects are not wanted, if there is memory for it.
fn sentence_only(alloc: Global, style: Style, fault: CommandFault) -> Option<String>
    ensures { IfSome result (λ text. string_bytes text ≡ sentence_in style fault) }
{
    explanation_of(alloc, style.form(""), command_sentence(fault), "")
}

/// The explanation of a refused image, if there is memory for it.
fn image_explanation(
    alloc: Global,
    style: Style,
    file: &str,
    bytes: &[u8],
    fault: ImageFault,
) -> Option<String>
    ensures { IfSome result
        (λ text. IsOfImage style file.now bytes.now fault (string_bytes text)) }
{
    let rule = RunFault::Image(fault);
    let rule = format!(in alloc; "{rule}").ok()?;
    let report = style.report(rule.as_str(), file);
    explain_image(alloc, report, bytes, fault)
}

/// The explanation of a refused image or device text, if there is memory for it.
fn run_explanation(
    alloc: Global,
    style: Style,
    files: RunFiles<'_>,
    fault: &RunFault,
) -> Option<String>
    ensures { IfSome result
        (λ text. IsOfRun style (files_of files.entry) fault.now (string_bytes text)) }
{
    match fault {
        RunFault::Image(fault) => {
            image_explanation(alloc, style, files.image_name, files.image, *fault)
        }
        RunFault::Device(device) => {
            let rule = format!(in alloc; "{fault}").ok()?;
            let report = style.report(rule.as_str(), files.text_name);
            explain_devices(alloc, report, files.image, files.text, *device)
        }
        _ => None,
    }
}

/// The explanation of a refused image or replay text, if there is memory for it.
fn replay_explanation(
    alloc: Global,
    style: Style,
    files: RunFiles<'_>,
    partition: &str,
    fault: &RunFault,
) -> Option<String>
    ensures { IfSome result
        (λ text.
        IsOfReplay style (files_of files.entry) partition.now fault.now (string_bytes text)) }
{
    match fault {
        RunFault::Image(fault) => {
            image_explanation(alloc, style, files.image_name, files.image, *fault)
        }
        RunFault::Device(device) => {
            let rule = format!(in alloc; "{fault}").ok()?;
            let report = style.report(rule.as_str(), files.text_name);
            explain_inputs(alloc, report, files.image, partition, files.text, *device)
        }
        RunFault::Partition => sentence_only(alloc, style, CommandFault::Partition),
        _ => None,
    }
}

/// The explanation of a refused image or device text, if there is memory for it.
fn inputs_explanation(
    alloc: Global,
    style: Style,
    files: RunFiles<'_>,
    fault: &InputsFault,
) -> Option<String>
    ensures { IfSome result
        (λ text. IsOfInputs style (files_of files.entry) fault.now (string_bytes text)) }
{
    match fault {
        InputsFault::Image(fault) => {
            image_explanation(alloc, style, files.image_name, files.image, *fault)
        }
        InputsFault::Device(device) => {
            let rule = format!(in alloc; "{fault}").ok()?;
            let report = style.report(rule.as_str(), files.text_name);
            explain_devices(alloc, report, files.image, files.text, *device)
        }
        InputsFault::Partition => sentence_only(alloc, style, CommandFault::Partition),
        _ => None,
    }
}

/// The explanation of a refused table or source, if there is memory for it.
fn explanation(
    alloc: Global,
    style: Style,
    names: ModuleNames<'_>,
    table: &[u8],
    sources: &[&[u8]],
    fault: &BuildFault,
) -> Option<String>
    ensures { IfSome result
        (λ text.
        IsNoted style names.entry.table.now table.now
        (map (λ s. s.now) names.entry.sources.now) (map (λ s. s.now) sources.now) fault.now
        (string_bytes text)) }
{
    let given = GivenSources {
        files: names.sources,
        texts: sources,
    };
    match fault {
        BuildFault::Table(rule) => {
            let shown = format!(in alloc; "{fault}").ok()?;
            let report = style.report(shown.as_str(), names.table);
            explain_table(alloc, report, table, *rule)
        }
        BuildFault::Pal {
            partition,
            fault: refused,
        } => {
            let shown = format!(in alloc; "{fault}").ok()?;
            let form = style.form(shown.as_str());
            explained(alloc, form, table, given, partition, *refused)
        }
        BuildFault::Compile { partition, .. } => {
            let shown = format!(in alloc; "{fault}").ok()?;
            let rule = shown.as_str();
            length_explained(alloc, style.form(rule), table, given, partition)
        }
        BuildFault::Sources => sentence_only(alloc, style, CommandFault::Sources),
        _ => None,
    }
}

/// The sources of a module: the names of their files, and their texts.
#[derive(Clone, Copy)]
pub struct GivenSources<'a> {
    pub files: &'a [&'a str],
    pub texts: &'a [&'a [u8]],
}

/// The explanation of the source of the partition of that name, if the table is accepted and there
/// is memory for it.
fn explained(
    alloc: Global,
    form: Form<'_>,
    table: &[u8],
    given: GivenSources<'_>,
    partition: &Name,
    fault: PalFault,
) -> Option<String>
    ensures { IfSome result
        (λ text.
        IsExplained (form_of form.entry) table.now (map (λ s. s.now) given.entry.files.now)
        (map (λ s. s.now) given.entry.texts.now) partition.now fault (string_bytes text)) }
{
    let table = accepted(alloc, table)?;
    explained_with(alloc, form, &table, given, partition, fault)
}

/// The table of a text, if it is accepted and there is memory for it.
fn accepted(alloc: Global, text: &[u8]) -> Option<ModuleTable>
    ensures { IfSome result (λ table. IsTable text.now (table_of table)) }
{
    match read_table(alloc, text) {
        Ok(table) => Some(table),
        Err(_) => None,
    }
}

/// The explanation of the source of the partition of that name in an accepted table.
fn explained_with(
    alloc: Global,
    form: Form<'_>,
    table: &ModuleTable,
    given: GivenSources<'_>,
    partition: &Name,
    fault: PalFault,
) -> Option<String>
    ensures { IfSome result
        (λ text.
        IsExplainedWith (form_of form.entry) (table_of table.now)
        (map (λ s. s.now) given.entry.files.now)
        (map (λ s. s.now) given.entry.texts.now) partition.now fault (string_bytes text)) }
{
    let rows = table.partitions.as_slice();
    let source = source_of(rows, given.files, given.texts, partition)?;
    let report = report_on(form, source.file);
    explain_source(alloc, report, source.period, source.text, fault.refusal)
}

/// How findings in the source in that file are reported.
fn report_on<'a>(form: Form<'a>, file: &'a str) -> Report<'a>
    ensures { report_of result ≡ report_on (form_of form.entry) file.now }
{
    Report { file, form }
}

/// A source: the name of its file, its text, and the period of its partition.
#[derive(Clone, Copy)]
pub struct SourceFile<'a> {
    pub file: &'a str,
    pub text: &'a [u8],
    pub period: u32,
}

/// The source of the partition of that name, where each partition has one source.
fn source_of<'a>(
    partitions: &[PartitionRow],
    files: &'a [&'a str],
    sources: &'a [&'a [u8]],
    name: &Name,
) -> Option<SourceFile<'a>>
    ensures { option_map source_file result
        ≡ source_of (map partition_view partitions.now) (map (λ s. s.now) files.now)
        (map (λ s. s.now) sources.now) name.now }
{
    let (partition, partitions) = partitions.split_first()?;
    let (file, files) = files.split_first()?;
    let (text, sources) = sources.split_first()?;
    if partition.name.as_bytes() == name.as_bytes() {
        Some(SourceFile {
            file,
            text,
            period: partition.period,
        })
    } else {
        source_of(partitions, files, sources, name)
    }
}

/// The explanation that the program of the partition of that name is too long, if there is memory for
/// it.
fn length_explained(
    alloc: Global,
    form: Form<'_>,
    table: &[u8],
    given: GivenSources<'_>,
    partition: &Name,
) -> Option<String>
    ensures { IfSome result
        (λ text.
        IsLengthExplained (form_of form.entry) table.now (map (λ s. s.now) given.entry.files.now)
        (map (λ s. s.now) given.entry.texts.now) partition.now (string_bytes text)) }
{
    let costs = costs_of(alloc, table, given.texts)?;
    length_explained_with(alloc, form, costs.as_slice(), given, partition)
}

/// The costs of a table and its sources, if they are accepted and there is memory for them.
fn costs_of(alloc: Global, table: &[u8], sources: &[&[u8]]) -> Option<Vec<PartitionCosts>>
    ensures { IfSome result
        (λ costs. AreCosts table.now (map (λ s. s.now) sources.now) costs.items) }
{
    match costs(alloc, table, sources) {
        Ok(costs) => Some(costs),
        Err(_) => None,
    }
}

/// The explanation that the program of the partition of that name is too long, with these costs.
fn length_explained_with(
    alloc: Global,
    form: Form<'_>,
    costs: &[PartitionCosts],
    given: GivenSources<'_>,
    partition: &Name,
) -> Option<String>
    ensures { IfSome result
        (λ text.
        IsLengthExplainedWith (form_of form.entry) costs.now
        (map (λ s. s.now) given.entry.files.now)
        (map (λ s. s.now) given.entry.texts.now) partition.now (string_bytes text)) }
{
    let costed = costed_of(costs, given.files, given.texts, partition)?;
    let report = report_on(form, costed.file);
    explain_length(alloc, report, costed.text, costed.bodies)
}

/// A source: the name of its file, its text, and the costs of the bodies of its program.
#[derive(Clone, Copy)]
pub struct CostedFile<'a> {
    pub file: &'a str,
    pub text: &'a [u8],
    pub bodies: &'a [BodyCost],
}

/// The source of the partition of that name, where the costs of each partition have one source.
fn costed_of<'a>(
    costs: &'a [PartitionCosts],
    files: &'a [&'a str],
    sources: &'a [&'a [u8]],
    name: &Name,
) -> Option<CostedFile<'a>>
    ensures { option_map costed_file result
        ≡ costed_of costs.now (map (λ s. s.now) files.now) (map (λ s. s.now) sources.now) name.now }
{
    let (row, costs) = costs.split_first()?;
    let (file, files) = files.split_first()?;
    let (text, sources) = sources.split_first()?;
    if row.partition.as_bytes() == name.as_bytes() {
        Some(CostedFile {
            file,
            text,
            bodies: row.bodies.as_slice(),
        })
    } else {
        costed_of(costs, files, sources, name)
    }
}

/// The sentence of the rule by which a command is refused.
pub fn sentence_of(refusal: &Refusal) -> &'static str
    ensures { result.now ≡ sentence_of refusal.now }
{
    match refusal {
        Refusal::Build(fault) => build_sentence(fault),
        Refusal::Run(fault) => run_sentence(fault),
        Refusal::Replay(fault) => sentence_of_replay(fault),
        Refusal::Inputs(fault) => inputs_sentence(fault),
        Refusal::File(_, reason) => file_sentence(*reason),
        Refusal::LongTable(_) => command_sentence(CommandFault::LongTable),
        Refusal::Memory => command_sentence(CommandFault::Memory),
        Refusal::Write => command_sentence(CommandFault::Write),
    }
}

fn build_sentence(fault: &BuildFault) -> &'static str
    ensures { result.now ≡ build_sentence fault.now }
{
    match fault {
        BuildFault::Table(fault) => table_sentence(*fault),
        BuildFault::Sources => command_sentence(CommandFault::Sources),
        BuildFault::Pal { fault, .. } => source_sentence(fault.refusal),
        BuildFault::Compile { .. } => command_sentence(CommandFault::Compile),
        BuildFault::Memory => command_sentence(CommandFault::Memory),
    }
}

fn run_sentence(fault: &RunFault) -> &'static str
    ensures { result.now ≡ run_sentence fault.now }
{
    match fault {
        RunFault::Ticks => command_sentence(CommandFault::Ticks),
        RunFault::Image(fault) => image_sentence(*fault),
        RunFault::Partition => command_sentence(CommandFault::Partition),
        RunFault::Device(fault) => device_sentence(*fault),
        RunFault::Memory => command_sentence(CommandFault::Memory),
        RunFault::Write | RunFault::Failed => command_sentence(CommandFault::Write),
    }
}

fn sentence_of_replay(fault: &RunFault) -> &'static str
    ensures { result.now ≡ sentence_of_replay fault.now }
{
    match fault {
        RunFault::Device(fault) => replay_sentence(*fault),
        _ => run_sentence(fault),
    }
}

fn inputs_sentence(fault: &InputsFault) -> &'static str
    ensures { result.now ≡ inputs_sentence fault.now }
{
    match fault {
        InputsFault::Ticks => command_sentence(CommandFault::Ticks),
        InputsFault::Image(fault) => image_sentence(*fault),
        InputsFault::Partition => command_sentence(CommandFault::Partition),
        InputsFault::Device(fault) => device_sentence(*fault),
        InputsFault::Memory => command_sentence(CommandFault::Memory),
        InputsFault::TooMany => command_sentence(CommandFault::Inputs),
        InputsFault::Write => command_sentence(CommandFault::Write),
    }
}

/// The object of a refusal: what its line says, with a sentence as advice.
fn object_with(alloc: Global, refusal: &Refusal, sentence: &str) -> Result<String, AllocError>
    ensures { IfOk result (λ text. string_bytes text ≡ object_with refusal.now sentence.now) }
{
    let rule = Rule { refusal };
    let rule = format!(in alloc; "{rule}")?;
    rule_line(alloc, rule.as_str(), rule.as_str(), sentence)
}

/// Returns true if standard output took no more bytes.
fn is_of_write(refusal: &Refusal) -> bool
    ensures { result ≡ is_of_write refusal.now }
{
    matches!(
        refusal,
        Refusal::Run(RunFault::Write)
            | Refusal::Replay(RunFault::Write)
            | Refusal::Inputs(InputsFault::Write)
            | Refusal::Write
    )
}

/// Why standard output took no more bytes, in a style.
fn write_text(
    alloc: Global,
    style: Style,
    refusal: &Refusal,
    reason: Reason,
) -> Result<String, AllocError>
    ensures { IfOk result (λ text. string_bytes text ≡ write_text style refusal.now reason) }
{
    let sentence = write_sentence(reason);
    match style {
        Style::Plain => format!(in alloc; "{sentence}\n"),
        Style::Json => object_with(alloc, refusal, sentence),
    }
}

/// The report of a refusal: its line, and an explanation after it if the words ask for one.
#[derive(Drop)]
pub struct Told {
    pub refusal: Refusal,
    pub noted: Noted,
}

impl fmt::Display for Told {
    ghost output = { λ told. Some (told_text told.noted.asked told.refusal told.noted.note) };

    fn fmt<W: fmt::Write>(&self, f: &mut fmt::Formatter<W>) -> fmt::Result {
        let refusal = &self.refusal;
        if !self.noted.asked {
            return writeln!(f, "{refusal}");
        }
        match &self.noted.note {
            Note::Explained(text, more) => write!(f, "{refusal}\n{text}{more}"),
            Note::Unwanted | Note::Wanted(_) => writeln!(f, "{refusal}\n{}", sentence_of(refusal)),
        }
    }
}
