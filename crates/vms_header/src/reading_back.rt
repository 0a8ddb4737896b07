ghost use Rattle.vms_header.specs.Laws.{HeadersReadBack};

/// The law that what is spelled of a header is read back as that header, whatever lines follow it.
pub fn headers_read_back()
    ensures { HeadersReadBack }
{}
