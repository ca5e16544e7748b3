use std::fs::{self, File, OpenOptions};
use std::io::{self, Read, Write};

/// The input of a lane, a file that is opened at its first read, and with it the lane's output: so neither is touched where no lane
/// is answered, and a pipe that nobody opens holds up its own lane alone.
#[derive(Drop)]
pub struct LateInput<'a> {
    /// The process.
    rt: &'a HostRuntime,
    /// The path of the input.
    path: String,
    /// The path of the output.
    output: String,
    /// The input and the output, once they are open. The output is held open, so that whoever reads a pipe meets its end when the lane ends.
    files: Option<(File, Option<File>)>,
}

impl<'a> LateInput<'a> {
    /// The file of this path, which isn't opened yet, of a lane whose output has the other path.
    pub fn new(rt: &'a HostRuntime, path: String, output: String) -> LateInput<'a> {
        LateInput {
            rt,
            path,
            output,
            files: None,
        }
    }
}

impl<'a> Read for LateInput<'a> {
    fn read(&mut self, buf: &mut [u8]) -> io::Result<usize> {
        if let Some((input, _)) = &mut self.files {
            return input.read(buf);
        }
        let input = fs::open(self.rt, self.path.as_str());
        // Where the output can't be made, the first write of the lane fails.
        let output = fs::create(self.rt, self.output.as_str()).ok();
        let mut input = input?;
        let count = input.read(buf);
        self.files = Some((input, output));
        count
    }
}

/// The output of a lane, a file that the lane's input makes, and that is opened at the first write.
#[derive(Drop)]
pub struct LateOutput<'a> {
    /// The process.
    rt: &'a HostRuntime,
    /// The path.
    path: String,
    /// The file, once it is open.
    file: Option<File>,
}

impl<'a> LateOutput<'a> {
    /// The file of this path, which isn't opened yet.
    pub fn new(rt: &'a HostRuntime, path: String) -> LateOutput<'a> {
        LateOutput {
            rt,
            path,
            file: None,
        }
    }
}

impl<'a> Write for LateOutput<'a> {
    fn write(&mut self, buf: &[u8]) -> io::Result<usize> {
        if let Some(file) = &mut self.file {
            return file.write(buf);
        }
        let mut options = OpenOptions::new();
        options.write(true);
        let mut file = options.open(self.rt, self.path.as_str())?;
        let count = file.write(buf);
        self.file = Some(file);
        count
    }

    fn flush(&mut self) -> io::Result<()> {
        Ok(())
    }
}
