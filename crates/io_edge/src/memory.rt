mod call_plan;
mod held_file;
mod mem_files;
mod mem_sink;
#[cfg(test)]
mod tests;

pub use mem_files::MemFiles;
pub use mem_sink::MemSink;
