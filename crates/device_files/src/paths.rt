//! What a file is, by the ending of its path.
ghost use Rattle.std.specs.Prelude.{◌≡◌, codes};
ghost use Rattle.device_files.specs.Paths.{ends_in, is_device_path};

// Whether a path ends with `ending`, after at least one more byte.
fn ends_in(ending: &[u8], path: &str) -> bool
    ensures { result ≡ ends_in ending.now path.now }
{
    path.len() > ending.len() && path.as_bytes().ends_with(ending)
}

/// Whether a file is a design: `.dev`, after at least one more byte.
pub fn is_design_path(path: &str) -> bool
    ensures { result ≡ ends_in (codes ".dev") path.now }
{
    ends_in(b".dev", path)
}

/// Whether a file is a netlist: `.bench`, after at least one more byte.
pub fn is_netlist_path(path: &str) -> bool
    ensures { result ≡ ends_in (codes ".bench") path.now }
{
    ends_in(b".bench", path)
}

/// Whether a file describes a device, as a netlist or as a design.
pub fn is_device_path(path: &str) -> bool
    ensures { result ≡ is_device_path path.now }
{
    is_netlist_path(path) || is_design_path(path)
}

/// Whether a file is a graph: `.nnf`, after at least one more byte.
pub fn is_graph_path(path: &str) -> bool
    ensures { result ≡ ends_in (codes ".nnf") path.now }
{
    ends_in(b".nnf", path)
}
