mod host_files;
mod host_sink;

pub use host_files::HostFiles;
pub use host_sink::HostSink;
