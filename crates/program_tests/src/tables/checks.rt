//! Manifests that are checked, and words.

/// Words that ask for nothing, and manifests for `check`.
pub const CHECKS: &str = "\
    == \n\
    $usage$\n\
    == serve\n\
    $usage$\n\
    == run x\n\
    $usage$\n\
    == run --help\n\
    $usage$\n\
    == check --repo d\n\
    $usage$\n\
    == check\n\
    + {children:[{name:'a',url:'#meta/a.cm'},],/* one */}\n\
    => 0\n\
    out valid\n\
    == check\n\
    + {children:[\n\
    $no-json$\n\
    == check\n\
    + {children:[{name:'a',url:'#meta/a.cm',colour:'red'}]}\n\
    => 1\n\
    out invalid 33 children 0 colour\n\
    == check\n\
    + {children:[{name:'a',url:'#a'}],offer:[{protocol:'p',from:'#a',to:'#a'}]}\n\
    => 1\n\
    out invalid 53 offer 0\n\
    == check\n\
    + {children:[{name:'a',url:'#a'},{name:'b',url:'#b'}],offer:[{protocol:'p',from:'#a',to:'#b'},\
    {protocol:'q',from:'#b',to:'#a'}]}\n\
    => 1\n\
    out invalid 58 graph 0 a b a\n\
    == check\n\
    + {children:[{name:'a',url:'#a'},{name:'b',url:'#b'}],offer:[{protocol:'p',from:'#a',to:'#b'},\
    {protocol:'q',from:'#b',to:'#a',dependency:'weak'}]}\n\
    => 0\n\
    out valid\n\
    == $child-of-long-name$ 255\n\
    $behind-name$\n\
    => 0\n\
    out valid\n\
    == $child-of-long-name$ 256\n\
    $behind-name$\n\
    => 1\n\
    out invalid 36 children 0 name\n\
    == check\n\
    + {facets:\n\
    fill 91 200\n\
    $no-json$\n\
    == $brackets$ 1048576\n\
    $no-json$\n\
    == check\n\
    + {}\n\
    fill 32 1048575\n\
    => 1\n\
    out invalid 41 manifest 0\n\
    == check\n\
    fill 255 1\n\
    => 1\n\
    out invalid 30 manifest 0\n";
