// What can go wrong, and how it is said.
use std::fmt::Write;
use std::{fmt, io};

/// What an argument names.
#[derive(Clone, Copy, Debug)]
pub enum Role {
    Image,
    Log,
    NewImage,
}

impl fmt::Display for Role {
    fn fmt<W: fmt::Write>(&self, f: &mut fmt::Formatter<W>) -> fmt::Result {
        f.write_str(match self {
            Role::Image => "the image",
            Role::Log => "the log",
            Role::NewImage => "the new image",
        })
    }
}

/// Why, in the system's words. std puts the error's number behind them, as ` (os error 2)`, which is left out.
#[derive(Debug, Drop)]
pub struct Reason(pub io::Error);

// Hands on what is written, up to the number.
#[derive(Drop)]
struct Words<'a, W>(Option<&'a mut fmt::Formatter<W>>);

impl<W: fmt::Write> fmt::Write for Words<'_, W> {
    fn write_str(&mut self, text: &str) -> fmt::Result {
        let Some(f) = self.0.take() else {
            return Ok(());
        };
        if let Some((words, _)) = text.split_once(" (os error ") {
            return f.write_str(words);
        }
        f.write_str(text)?;
        self.0 = Some(f);
        Ok(())
    }
}

impl fmt::Display for Reason {
    fn fmt<W: fmt::Write>(&self, f: &mut fmt::Formatter<W>) -> fmt::Result {
        write!(Words(Some(f)), "{}", self.0)
    }
}

/// What went wrong. A file is told by its role and its path.
#[derive(Debug, Drop)]
pub enum Fault {
    Usage,
    EmptyName(Role),
    // std opens files by text
    NoText(Role),
    NameNotTaken(Role, Reason),
    NotRead(Role, String, Reason),
    Empty(Role, String),
    TooLong(Role, String, usize),
    NotPrinted(Reason),
    NotKept(String, Reason),
}

impl fmt::Display for Fault {
    fn fmt<W: fmt::Write>(&self, f: &mut fmt::Formatter<W>) -> fmt::Result {
        match self {
            Fault::Usage => f.write_str("it takes IMAGE LOG [NEW]; ./replay says what these are"),
            Fault::EmptyName(role) => write!(f, "the name of {role} is empty"),
            Fault::NoText(role) => write!(f, "the name of {role} is no UTF-8"),
            Fault::NameNotTaken(role, why) => write!(f, "cannot take the name of {role}: {why}"),
            Fault::NotRead(role, path, why) => write!(f, "cannot read {role} {path}: {why}"),
            Fault::Empty(role, path) => write!(f, "cannot use {role} {path}: it is empty"),
            Fault::TooLong(role, path, most) => {
                write!(f, "cannot use {role} {path}: it has more than {most} bytes")
            }
            Fault::NotPrinted(why) => write!(f, "cannot write the replies: {why}"),
            Fault::NotKept(path, why) => write!(f, "cannot write the new image {path}: {why}"),
        }
    }
}

#[cfg(test)]
mod tests {
    use super::*;
    use std::alloc::AllocError;

    #[test]
    fn only_the_number_is_left_out(rt: HostRuntime) -> Result<(), AllocError> {
        let alloc = rt.alloc();
        let path = String::from_str(alloc, "a (os error 2)")?;
        let missing = Reason(io::Error::from_raw_os_error(2));
        let read = Fault::NotRead(Role::Log, path, missing).to_string(alloc)?;
        assert_eq!(rt;
            read.as_str(),
            "cannot read the log a (os error 2): No such file or directory"
        );
        let memory = Reason(io::Error::from(AllocError));
        let name = Fault::NameNotTaken(Role::NewImage, memory).to_string(alloc)?;
        assert_eq!(rt;
            name.as_str(),
            "cannot take the name of the new image: out of memory"
        );
        Ok(())
    }
}
