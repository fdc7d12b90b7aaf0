// What a case asks for, as its sections say.

use crate::stubs::StubFile;
use case_files::{Answer, Case, Comparison, FormFail, Section};
use outside::{MemFiles, MemSink};
use rlc_cli::rlc;
use std::alloc::Global;

// The most bytes that an answer may have, where the case says nothing else.
const ROOM: usize = 1 << 20;

/// A case in hand: the world that the command runs in, its words, and the answer that is wanted.
#[derive(Drop)]
pub struct Trial {
    files: MemFiles,
    words: Vec<String>,
    // The names of stub files, which stand behind the other words.
    stub_words: Vec<String>,
    // Of the sink: the numbers of the writes that fail, its room, and the most bytes that it takes at a write.
    failing_writes: Vec<u64>,
    room: usize,
    most: usize,
    wanted: Option<Answer>,
    comparison: Comparison,
}

impl Trial {
    fn new(alloc: Global) -> Trial {
        Trial {
            files: MemFiles::new(alloc),
            words: Vec::new(alloc),
            stub_words: Vec::new(alloc),
            failing_writes: Vec::new(alloc),
            room: ROOM,
            most: ROOM,
            wanted: None,
            comparison: Comparison::Whole,
        }
    }

    /// Runs the command: what is compared, what is wanted, and what is given.
    pub fn run(self, alloc: Global) -> Result<(Comparison, Answer, Answer), FormFail> {
        let Trial {
            mut files,
            mut words,
            stub_words,
            failing_writes,
            room,
            most,
            wanted,
            comparison,
        } = self;
        let Some(wanted) = wanted else {
            return Err(FormFail::Section);
        };
        for word in &stub_words {
            words.push(String::from_str(alloc, word)?)?;
        }
        let mut out = MemSink::new(alloc, room, most.max(1))?;
        for number in &failing_writes {
            out.fail_at(*number)?;
        }
        let status = rlc(alloc, &words, &mut files, &mut out);
        let text = Vec::from_slice(alloc, out.bytes())?;
        let given = Answer {
            status: status.code(),
            text,
        };
        Ok((comparison, wanted, given))
    }

    // A line of the section `outside`.
    fn set_outside(&mut self, line: &str) -> Result<(), FormFail> {
        let Some((what, number)) = line.rsplit_once(' ') else {
            return Err(FormFail::Section);
        };
        let Ok(number) = number.parse::<u32>() else {
            return Err(FormFail::Section);
        };
        match what {
            "fail read" => self.files.fail_at(u64::from(number))?,
            "fail write" => self.failing_writes.push(u64::from(number))?,
            "room" => self.room = number as usize,
            "most" => self.most = number as usize,
            _ => return Err(FormFail::Section),
        }
        Ok(())
    }

    // The section of the answer: the status, then the text.
    fn set_answer(&mut self, alloc: Global, bytes: &[u8]) -> Result<(), FormFail> {
        let Ok(content) = str::from_utf8(bytes) else {
            return Err(FormFail::NotText);
        };
        let Some((status, text)) = content.split_once('\n') else {
            return Err(FormFail::Section);
        };
        let Ok(status) = status.parse::<u8>() else {
            return Err(FormFail::Section);
        };
        let text = Vec::from_slice(alloc, text.as_bytes())?;
        self.wanted = Some(Answer { status, text });
        Ok(())
    }

    fn set_words(&mut self, alloc: Global, bytes: &[u8]) -> Result<(), FormFail> {
        let Ok(content) = str::from_utf8(bytes) else {
            return Err(FormFail::NotText);
        };
        for word in content.split_ascii_whitespace() {
            self.words.push(String::from_str(alloc, word)?)?;
        }
        Ok(())
    }

    // Takes a stub file.
    fn take_stub(&mut self, alloc: Global, stub: &StubFile) -> Result<(), FormFail> {
        self.files.put(stub.name.as_bytes(), &stub.bytes)?;
        self.stub_words.push(String::from_str(alloc, &stub.name)?)?;
        Ok(())
    }

    // The section of stub files: the names of those that are taken, or nothing, where all are.
    fn take_stubs(
        &mut self,
        alloc: Global,
        names: &str,
        stubs: &[StubFile],
    ) -> Result<(), FormFail> {
        if names.is_empty() {
            for stub in stubs {
                self.take_stub(alloc, stub)?;
            }
        }
        for name in names.split_ascii_whitespace() {
            let Some(stub) = stubs.iter().find(|stub| stub.name.as_str() == name) else {
                return Err(FormFail::Section);
            };
            self.take_stub(alloc, stub)?;
        }
        Ok(())
    }

    fn set_comparison(&mut self, body: &str) -> Result<(), FormFail> {
        self.comparison = match body {
            "status\n" => Comparison::Status,
            "count\n" => Comparison::Counted,
            "open\n" => Comparison::Open,
            _ => return Err(FormFail::Section),
        };
        Ok(())
    }

    fn set(
        &mut self,
        alloc: Global,
        section: &Section,
        stubs: &[StubFile],
    ) -> Result<(), FormFail> {
        let content = section.content(alloc, &section.body)?;
        if let Some(name) = section.head.strip_prefix("file ") {
            self.files.put(name.as_bytes(), &content)?;
            return Ok(());
        }
        match section.head.as_str() {
            "words" => self.set_words(alloc, &content),
            "answer" => self.set_answer(alloc, &content),
            "path" => self.set_comparison(&section.body),
            "labels" => Ok(()),
            "stubs" => self.take_stubs(alloc, &section.body, stubs),
            "outside" => {
                for line in section.body.lines() {
                    self.set_outside(line)?;
                }
                Ok(())
            }
            _ => Err(FormFail::Section),
        }
    }
}

/// What the sections of a case ask for, which may take these stub files.
pub fn trial_of(alloc: Global, case: &Case, stubs: &[StubFile]) -> Result<Trial, FormFail> {
    let mut trial = Trial::new(alloc);
    for section in &case.sections {
        trial.set(alloc, section, stubs)?;
    }
    Ok(trial)
}
