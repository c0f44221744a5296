//! Files of cases, whose fields are taken by name: a derived reader of so many fields costs minutes of proof.
use anyhow::bail;
use serde_json::Value;
use std::fs;
use std::rt::Files;

/// The cases of one subject.
#[derive(Drop)]
pub struct CaseFile(Value);

impl CaseFile {
    pub fn cases(&self) -> &[Value] {
        match self.0.get("cases") {
            Some(Value::Array(cases)) => cases,
            _ => &[],
        }
    }

    /// Whether it says what its cases show, and nothing beside them.
    fn is_whole(&self) -> bool {
        match (&self.0, self.0.get("about")) {
            (Value::Object(fields), Some(Value::String(_))) => fields.len() == 2,
            _ => false,
        }
    }
}

/// The cases of this file, of which there is one at least.
pub fn read_cases(rt: &(impl Files + AllocGlobal), path: &str) -> anyhow::Result<CaseFile> {
    let text = fs::read_to_string(rt, path)?;
    let file = CaseFile(Value::from_str(rt.alloc(), text.as_str())?);
    if !file.is_whole() || file.cases().is_empty() {
        bail!("no file of cases");
    }
    Ok(file)
}

/// One case: what the tool is given and what it gives.
#[derive(Clone, Copy)]
pub struct Case<'f>(pub &'f Value);

impl<'f> Case<'f> {
    /// What it shows; no other case of the file has this name.
    pub fn name(self) -> Option<&'f str> {
        self.text("name")
    }

    /// The words of its run.
    pub fn words(self) -> Option<&'f Vec<Value>> {
        self.0.get("words")?.as_array()
    }

    /// The input as a tree.
    pub fn input(self) -> Option<&'f Value> {
        self.0.get("input")
    }

    /// The input as it stands. Where it is said in no way, the first read fails.
    pub fn bytes(self) -> Option<&'f str> {
        self.text("bytes")
    }

    /// The input in parts, each a text and how often it stands.
    pub fn input_parts(self) -> Option<&'f Vec<Value>> {
        self.0.get("input_parts")?.as_array()
    }

    /// Of how many statements the made script is that is the input.
    pub fn made_statements(self) -> Option<u64> {
        self.number("made")
    }

    /// The output as a tree, which is the input where that is kept.
    pub fn output(self) -> Option<&'f Value> {
        if self.is_set("kept") {
            return self.input();
        }
        self.0.get("output")
    }

    /// The output as a tree in its canonical form, with every field.
    pub fn canonical(self) -> Option<&'f Value> {
        self.0.get("canonical")
    }

    /// The output as a line. Where it is said in no way, it is empty.
    pub fn line(self) -> Option<&'f str> {
        self.text("line")
    }

    /// The output as a line in parts, as those of the input.
    pub fn line_parts(self) -> Option<&'f Vec<Value>> {
        self.0.get("line_parts")?.as_array()
    }

    /// The lines of the notes.
    pub fn notes(self) -> Option<&'f Vec<Value>> {
        self.0.get("notes")?.as_array()
    }

    pub fn status(self) -> u64 {
        self.number("status").unwrap_or(0)
    }

    /// The read that fails, where reads are numbered from 0.
    pub fn failing_read(self) -> Option<u32> {
        u32::try_from(self.number("failing_read")?).ok()
    }

    /// How many bytes of the output are taken before a write fails.
    pub fn output_room(self) -> Option<usize> {
        self.room("output_room")
    }

    /// How many bytes of the notes are taken before a write fails.
    pub fn notes_room(self) -> Option<usize> {
        self.room("notes_room")
    }

    /// Whether its input and its notes go over a reader and a writer of std, who takes no more where one in memory fails.
    pub fn is_over_std(self) -> bool {
        self.is_set("over_std")
    }

    /// Whether the output, given as an input with the same words, is written as it stands.
    pub fn runs_again(self) -> bool {
        self.is_set("again")
    }

    /// Whether it is run with each flag and with each two flags behind its words.
    pub fn is_by_pairs(self) -> bool {
        self.is_set("by_pairs")
    }

    /// What is told of a case that is wrong on purpose.
    pub fn differs(self) -> Option<&'f str> {
        self.text("differs")
    }

    /// The first field that no case has, or that holds something else.
    pub fn wrong_field(self) -> Option<&'f str> {
        for (name, value) in self.0.as_object()? {
            if !is_field(name.as_str(), value) {
                return Some(name.as_str());
            }
        }
        None
    }

    /// Why it says nothing that could be tried, if so.
    pub fn flaw(self) -> Option<&'static str> {
        if !self.has("name") {
            Some("has no name")
        } else if !self.has("words") {
            Some("has no words")
        } else if self.has_two(&["input", "bytes", "input_parts", "made"]) {
            Some("has two inputs")
        } else if self.has_two(&["output", "kept", "canonical", "line", "line_parts"]) {
            Some("has two outputs")
        } else if self.runs_again() && self.output().is_none() {
            Some("is to run again, and has no output")
        } else {
            None
        }
    }

    fn text(self, name: &str) -> Option<&'f str> {
        self.0.get(name)?.as_str()
    }

    fn is_set(self, name: &str) -> bool {
        self.0.get(name) == Some(&Value::Bool(true))
    }

    fn has(self, name: &str) -> bool {
        self.0.get(name).is_some()
    }

    /// Whether it has two of these fields.
    fn has_two(self, names: &[&str]) -> bool {
        let mut has_one = false;
        for name in names {
            if self.has(name) {
                if has_one {
                    return true;
                }
                has_one = true;
            }
        }
        false
    }

    fn number(self, name: &str) -> Option<u64> {
        self.0.get(name)?.as_u64()
    }

    fn room(self, name: &str) -> Option<usize> {
        usize::try_from(self.number(name)?).ok()
    }
}

/// Whether a case has a field of this name, which holds such values. The source and what it becomes as JavaScript,
/// whether they are modules, and whether the trees tell where nodes stand in them, are for the reader alone.
fn is_field(name: &str, value: &Value) -> bool {
    match name {
        "name" | "source" | "lowered" | "bytes" | "line" | "differs" => value.is_string(),
        "module" | "spans" | "kept" | "again" | "by_pairs" | "over_std" => value.is_boolean(),
        "input" | "output" | "canonical" => true,
        "words" | "notes" => are_texts(value),
        "input_parts" | "line_parts" => are_parts(value),
        "status" | "made" | "failing_read" | "output_room" | "notes_room" => value.is_u64(),
        _ => false,
    }
}

fn are_texts(value: &Value) -> bool {
    match value {
        Value::Array(items) => items.iter().all(Value::is_string),
        _ => false,
    }
}

fn are_parts(value: &Value) -> bool {
    match value {
        Value::Array(items) => items.iter().all(is_part),
        _ => false,
    }
}

fn is_part(value: &Value) -> bool {
    match (value.get("text"), value.get("times")) {
        (Some(text), Some(times)) => text.is_string() && times.is_u64(),
        _ => false,
    }
}
